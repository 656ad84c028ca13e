// `anchor_toolbar` of input.rs: the toolbar's four keys, playback and speed at the left, mute and pause at the right.
#![tactic(auto)]

ghost use Rattle.std.specs.Prelude.{◌≡◌, ◌++◌, ◌≤◌, T, length};
ghost use Rattle.std.specs.Float.Ieee.{le};
ghost use Rattle.float.specs.Float.{k0};
ghost use Rattle.layout.specs.Layout.{element_of, Few};
ghost use Rattle.layout.specs.Elements.{controller_elements_of};
ghost use mathlib.Core.List.{map};
ghost use Rattle.toolbar.specs.Toolbar.{avoided_of, BarsOf, candidate_of, room_of, below_of, moved_bar, pair_of, anchor_toolbar_of, reusable_top_of};

use arrayvec::ArrayVec;
use geometry::Rect;
use layout::Layout;

pub const TOOLBAR_HEIGHT: f32 = 18.0;

// What the toolbar must not overlap: at most 16 cutouts and 15 controller elements.
type Obstacles = ArrayVec<Rect, 31>;

// The bar moved past the obstacle c, away from its own edge of the screen.
#[tactic(auto, unfolding(crate::specs::Toolbar::candidate_of))]
fn candidate(bar: Rect, left: bool, c: Rect) -> Rect
    ensures { result ≡ candidate_of bar left c }
{
    let shifted = float::pick(left, c.x + c.w + 8.0, c.x - bar.w - 8.0);
    Rect::new(shifted, bar.y, bar.w, bar.h)
}

// A bar may move across as far as the middle of the screen.
#[tactic(auto, unfolding(crate::specs::Toolbar::room_of))]
fn room(bar: Rect, left: bool, w: f32) -> bool
    ensures { result ≡ room_of bar left w }
{
    bar.x >= 0.0
        && (bar.x + bar.w <= w
            && (if left {
                bar.x + bar.w <= w / 2.0
            } else {
                bar.x >= w / 2.0
            }))
}

// The bar moved below the obstacle c, as far as the screen goes.
#[tactic(auto, unfolding(crate::specs::Toolbar::below_of))]
fn below(bar: Rect, h: f32, c: Rect) -> Rect
    ensures { result ≡ below_of bar h c }
{
    let y = float::min(c.y + c.h + 8.0, float::max(h - bar.h, 0.0));
    Rect::new(bar.x, y, bar.w, bar.h)
}

// The bar moved past the obstacle c, or where it cannot pass it on its side of the screen, below it.
#[tactic(auto, unfolding(crate::specs::Toolbar::moved_bar))]
fn moved(bar: Rect, left: bool, w: f32, h: f32, obstacles: &[Rect], c: Rect) -> Rect
    ensures { result ≡ moved_bar left w h obstacles.now bar c }
{
    let candidate = candidate(bar, left, c);
    if room(candidate, left, w) && !candidate.overlaps_any(obstacles) {
        return candidate;
    }
    below(bar, h, c)
}

// Where the bar of a pair of keys comes to lie (left by `break`, a form that docs/DECISIONS.md names): after as many turns as there are obstacles, and one more, if it is not free before.
fn pair(mut bar: Rect, left: bool, w: f32, h: f32, obstacles: &[Rect]) -> Rect
    ensures { result ≡ pair_of bar left w h obstacles.now }
{
    for _ in 0..=obstacles.len() {
        let Some(c) = obstacles.iter().find(|o| bar.overlaps(**o)) else {
            break;
        };
        bar = moved(bar, left, w, h, obstacles, *c);
    }
    bar
}

// The camera holes, and the controls.
fn with_controls(cutouts: &[Rect], l: Layout) -> Obstacles
    requires { (length cutouts.now ≤ 16) × Few l }
    ensures { result.items ≡ cutouts.now ++ map (element_of l) (controller_elements_of l) }
{
    let mut obstacles = ArrayVec::new();
    for r in cutouts {
        obstacles.push(*r);
    }
    for r in l.controller_elements().as_slice() {
        obstacles.push(*r);
    }
    obstacles
}

// The bars of the two pairs of keys.
#[derive(Clone, Copy)]
struct Bars {
    left: Rect,
    right: Rect,
}

fn place_both(obstacles: &[Rect], left: Rect, right: Rect, w: f32, h: f32) -> Bars
    ensures { BarsOf obstacles.now left right w h result }
{
    Bars {
        left: pair(left, true, w, h, obstacles),
        right: pair(right, false, w, h, obstacles),
    }
}

// A revealed status bar can push the toolbar into the controls, which stay where they are. Where there is no obstacle the bars stay.
#[tactic(auto, unfolding(crate::specs::Toolbar::avoided_of, crate::specs::Toolbar::pair_of, crate::specs::Toolbar::pass))]
fn place_bars(
    l: Layout,
    covered_top: f32,
    cutouts: &[Rect],
    left: Rect,
    right: Rect,
    w: f32,
    h: f32,
) -> Bars
    requires { (length cutouts.now ≤ 16) × Few l }
    ensures { BarsOf (avoided_of l covered_top cutouts.now) left right w h result }
{
    if covered_top > 0.0 {
        return place_both(&with_controls(cutouts, l), left, right, w, h);
    }
    if cutouts.is_empty() {
        return Bars { left, right };
    }
    place_both(cutouts, left, right, w, h)
}

// The keys stay in corner pairs in every profile. They use a clear camera margin only while the system shows no
// decoration; a visible status bar pushes them down, and the game stays.
#[tactic(auto, unfolding(crate::specs::Toolbar::anchor_toolbar_of))]
pub fn anchor_toolbar(
    l: Layout,
    w: f32,
    h: f32,
    reusable_top: f32,
    covered_top: f32,
    cutouts: &[Rect],
) -> Layout
    requires { (length cutouts.now ≤ 16) × Few l × T (le k0 reusable_top) }
    ensures { result ≡ anchor_toolbar_of l w h reusable_top covered_top cutouts.now }
{
    let padding = float::min(28.0, w * 0.055);
    let gap = float::min(8.0, w * 0.01);
    let share = float::max((w - 2.0 * padding - 3.0 * gap) / 4.0, 1.0);
    let size = float::min(float::min(float::min(40.0, share), h), w);
    let height = float::min(size, TOOLBAR_HEIGHT);
    let time_width = size * float::pick(w >= 320.0, 1.4, 1.0);
    let bottom = float::max(h - height, 0.0);
    let top = float::clamp(-reusable_top + covered_top, -reusable_top, bottom);
    let right = w - padding - size;
    let bars = place_bars(
        l,
        covered_top,
        cutouts,
        Rect::new(padding, top, size + gap + time_width, height),
        Rect::new(right - size - gap, top, 2.0 * size + gap, height),
        w,
        h,
    );
    // Key by key: a struct update makes another layout first, which takes as long as all the rest where there is no cutout.
    let mut anchored = l;
    anchored.playback = Rect::new(bars.left.x, bars.left.y, size, height);
    anchored.speed = Rect::new(bars.left.x + size + gap, bars.left.y, time_width, height);
    anchored.mute = Rect::new(bars.right.x, bars.right.y, size, height);
    anchored.pause = Rect::new(bars.right.x + size + gap, bars.right.y, size, height);
    anchored
}

// How far a picture reaches above the screen.
pub fn reusable_top(picture: Rect) -> f32
    ensures { result ≡ reusable_top_of picture }
{
    float::max(-picture.y, 0.0)
}
