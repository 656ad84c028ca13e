// The first steps of `Preset::layout_in` of input.rs: the layout at first, the area that the game gets and the arrangement for it. The screen's w and h, cutouts and
// picture are parameters of their own, as in the Rust and in each definition.
#![tactic(auto)]

ghost use Rattle.std.specs.Prelude.{◌≡◌, true, ◌||◌, ◌≤◌, T, length, unwrap_or};
ghost use mathlib.Core.List.{foldl};
ghost use Rattle.std.specs.Float.Ieee.{le};
ghost use Rattle.float.specs.Float.{k0};
ghost use Rattle.float.specs.MinMax.{max_of};
ghost use Rattle.layout.specs.declared.Layout.{Layout};
ghost use Rattle.layout.specs.Labels.{OfMode};
ghost use Rattle.search.specs.Search.{bottom_of};
ghost use Rattle.toolbar.specs.Toolbar.{anchor_toolbar_of, reusable_top_of};
ghost use Rattle.band.specs.Band.{controller_band_of};
ghost use Rattle.arrangement_choice.specs.Choice.{start_of, below_toolbar_of, largest_of, around_of, rails_win_of, try_rails_of, band_or_rails_of, first_of, area_of, arrangement_of};

use band::controller_band;
use camera_rails::analog_camera_rails;
use cutouts::avoid_cutouts;
use defaults::{analog_default, default_in};
use float::{abs, max, min};
use geometry::{CENTRED, Rect};
use layout::{EMPTY_LAYOUT, Layout};
use search::{aspect, clear_picture_aspect, place_game_in_aspect};
use toolbar::{anchor_toolbar, reusable_top};

// marked: the preset's mark `analog`; analog: that or psp, so that there are sticks.
#[tactic(auto, unfolding(crate::specs::Choice::start_of))]
fn start(marked: bool, psp: bool, w: f32, h: f32, cutouts: &[Rect], picture: Rect) -> Layout
    requires { length cutouts.now ≤ 16 }
    ensures { result ≡ start_of marked psp w h cutouts.now picture }
{
    if psp {
        defaults::psp(w, h)
    } else if marked {
        analog_default(w, h)
    } else {
        default_in(w, h, cutouts, picture)
    }
}

// The lowest of y and where the rectangles end.
fn lowest(y: f32, rects: &[Rect]) -> f32
    ensures { result ≡ foldl (λ y r. max_of y (bottom_of r)) y rects.now }
{
    rects.iter().fold(y, |y, r| max(y, r.y + r.h))
}

// The part of the picture's area below the toolbar's keys, one point high at least.
#[tactic(auto, unfolding(crate::specs::Choice::below_toolbar_of))]
fn below_toolbar(layout: Layout, picture: Rect) -> Rect
    ensures { result ≡ below_toolbar_of layout picture }
{
    let keys = [layout.playback, layout.speed, layout.mute, layout.pause];
    let lowest = lowest(picture.y, &keys);
    let bottom = min(lowest, picture.y + max(picture.h - 1.0, 0.0));
    Rect::new(
        picture.x,
        bottom,
        picture.w,
        max(picture.y + picture.h - bottom, 1.0),
    )
}

// The largest picture in an area.
#[tactic(auto, unfolding(crate::specs::Choice::largest_of))]
fn largest(area: Rect, aspect: f32) -> Rect
    ensures { result ≡ largest_of area aspect }
{
    let fitted = clear_picture_aspect(area.w, area.h, &[], aspect);
    Rect::new(area.x + fitted.x, area.y + fitted.y, fitted.w, fitted.h)
}

// Wider by more than 0.01, or as wide to 0.01 beside a wider stick.
#[tactic(auto, unfolding(crate::specs::Choice::rails_win_of))]
fn rails_win(candidate: Layout, layout: Layout) -> bool
    ensures { result ≡ rails_win_of candidate layout }
{
    let a = candidate.game.w;
    let b = layout.game.w;
    a > b + 0.01 || (abs(a - b) <= 0.01 && candidate.sticks[0].w > layout.sticks[0].w)
}

// The rails, or the layout as it was compared with them.
#[tactic(auto, unfolding(crate::specs::Choice::try_rails_of))]
fn try_rails(layout: Layout, psp: bool, w: f32, h: f32, cutouts: &[Rect], area: Rect) -> Layout
    requires { (length cutouts.now ≤ 16) × OfMode true psp layout }
    ensures { result ≡ try_rails_of layout psp w h cutouts.now area }
{
    let Some(rails) = analog_camera_rails(w, h, area, cutouts, psp) else {
        return layout;
    };
    let clear = place_game_in_aspect(
        avoid_cutouts(layout, w, h, cutouts),
        area,
        false,
        1.0,
        CENTRED,
        aspect(psp),
    );
    if rails_win(rails, clear) {
        rails
    } else {
        clear
    }
}

// The band, else the layout; with sticks that or the rails.
#[tactic(auto, unfolding(crate::specs::Choice::band_or_rails_of))]
fn band_or_rails(
    layout: Layout,
    analog: bool,
    psp: bool,
    w: f32,
    h: f32,
    cutouts: &[Rect],
    area: Rect,
) -> Layout
    requires { (length cutouts.now ≤ 16) × OfMode analog psp layout }
    ensures { result ≡ band_or_rails_of layout analog psp w h cutouts.now area }
{
    let banded = controller_band(w, h, analog, psp, area).unwrap_or(layout);
    if analog {
        try_rails(banded, psp, w, h, cutouts, area)
    } else {
        banded
    }
}

// The layout at first, with the toolbar in its row above a Maximum picture.
#[tactic(auto, unfolding(crate::specs::Choice::first_of))]
fn first(
    marked: bool,
    psp: bool,
    maximum: bool,
    w: f32,
    h: f32,
    cutouts: &[Rect],
    picture: Rect,
) -> Layout
    requires { length cutouts.now ≤ 16 }
    ensures { result ≡ first_of marked psp maximum w h cutouts.now picture }
{
    let layout = start(marked, psp, w, h, cutouts, picture);
    if maximum {
        return anchor_toolbar(layout, w, h, reusable_top(picture), 0.0, cutouts);
    }
    layout
}

// The area that the game gets. The toolbar's keys lie the same over every layout l.
#[tactic(auto, unfolding(crate::specs::Choice::area_of))]
pub fn area(maximum: bool, w: f32, h: f32, cutouts: &[Rect], picture: Rect) -> Rect
    requires { length cutouts.now ≤ 16 }
    ensures { (l : Layout) → result ≡ area_of (anchor_toolbar_of l w h (reusable_top_of picture) k0 cutouts.now) maximum picture }
{
    if maximum {
        let bar = anchor_toolbar(EMPTY_LAYOUT, w, h, reusable_top(picture), 0.0, cutouts);
        return below_toolbar(bar, picture);
    }
    picture
}

// The controls about the picture, else the layout at first, which is not made where there are such controls.
#[tactic(auto, unfolding(crate::specs::Choice::around_of))]
fn around(
    marked: bool,
    psp: bool,
    w: f32,
    h: f32,
    cutouts: &[Rect],
    picture: Rect,
    area: Rect,
) -> Layout
    requires { (length cutouts.now ≤ 16) × T (le k0 w) × T (le k0 h) }
    ensures { result ≡ around_of (first_of marked psp true w h cutouts.now picture) (marked || psp) psp w h cutouts.now area }
{
    let game = largest(area, aspect(psp));
    match picture::controls(w, h, game, marked | psp, psp, cutouts) {
        Some(controls) => controls,
        None => first(marked, psp, true, w, h, cutouts, picture),
    }
}

// The arrangement for that area. plain: nothing was saved and no overlap asked for, so that others than the first may be tried.
#[tactic(auto, unfolding(crate::specs::Choice::arrangement_of))]
pub fn arrangement(
    marked: bool,
    psp: bool,
    maximum: bool,
    plain: bool,
    w: f32,
    h: f32,
    cutouts: &[Rect],
    picture: Rect,
    area: Rect,
) -> Layout
    requires { (length cutouts.now ≤ 16) × T (le k0 w) × T (le k0 h) }
    ensures { result ≡ arrangement_of (first_of marked psp maximum w h cutouts.now picture) (marked || psp) psp maximum plain w h cutouts.now area }
{
    if !plain {
        return first(marked, psp, maximum, w, h, cutouts, picture);
    }
    if maximum {
        return around(marked, psp, w, h, cutouts, picture, area);
    }
    let layout = first(marked, psp, false, w, h, cutouts, picture);
    // `|`: with `||` the argument is a join of two branches, and what `band_or_rails` requires does not close.
    band_or_rails(layout, marked | psp, psp, w, h, cutouts, area)
}
