// `Preset::layout_in` and `layout_with_cutouts` of input.rs, and `PlayerViewport::layout`; the first steps are in crate `arrangement_choice`. The screen's w and h, cutouts and
// picture are parameters of their own, as in the Rust and in each definition. What `clamp`
// and the toolbar ask of them is said where they are handed on.
#![tactic(auto)]

ghost use Rattle.std.specs.Prelude.{◌≡◌, true, ◌≤◌, length, T};
ghost use Rattle.std.specs.Float.Ieee.{le};
ghost use Rattle.std.specs.Float.Ieee.Scale.{finite};
ghost use Rattle.float.specs.Float.{k0};
ghost use Rattle.settings.specs.Settings.{accepted_of};
ghost use Rattle.preset.specs.Preset.{maximum_of, plain_of, row_allowed_of, laid_out_of, layout_in_of, layout_with_cutouts_of, viewport_layout_of, settings_layout_of, settings_viewport_of};

use arrangement_choice::{area, arrangement};
use cutouts::avoid_cutouts;
use float::max;
use geometry::Rect;
use landscape::fit_landscape_controls;
use layout::Layout;
use saved::with_saved;
use search::{aspect, place_game_in_aspect};
use settings::{PictureFit, Preset, Settings};
use toolbar::{anchor_toolbar, reusable_top};

fn is_maximum(p: Preset) -> bool
    ensures { result ≡ maximum_of p }
{
    p.picture_fit() == PictureFit::Maximum
}

// Nothing was saved, and no overlap asked for.
fn plain(p: Preset) -> bool
    requires { p.count ≤ 32 }
    ensures { result ≡ plain_of p }
{
    p.saved_list().is_empty() && !p.overlap
}

// The keys beside the sticks may go into a row.
#[tactic(auto, unfolding(crate::specs::Preset::row_allowed_of))]
fn row_allowed(p: Preset, cutouts: &[Rect]) -> bool
    requires { p.count ≤ 32 }
    ensures { result ≡ row_allowed_of p cutouts.now }
{
    (p.analog || p.psp) && plain(p) && !is_maximum(p) && p.untouched() && cutouts.is_empty()
}

// On a screen of 1 by 1 at least.
fn laid_out(p: Preset, w: f32, h: f32, cutouts: &[Rect], picture: Rect) -> Layout
    requires { (p.count ≤ 32) × (length cutouts.now ≤ 16) × T (finite w) × T (finite h) × T (le k0 w) × T (le k0 h) }
    ensures { result ≡ laid_out_of p w h cutouts.now picture }
{
    let psp = p.psp;
    let maximum = is_maximum(p);
    let plain = plain(p);
    let area = area(maximum, w, h, cutouts, picture);
    let layout = arrangement(p.analog, psp, maximum, plain, w, h, cutouts, picture, area);
    let restored = with_saved(layout, w, h, p.saved_list());
    let clear = avoid_cutouts(restored, w, h, cutouts);
    let elements = anchor_toolbar(clear, w, h, reusable_top(picture), 0.0, cutouts);
    let shape = aspect(psp);
    let overlap = p.overlap | maximum;
    let placed = place_game_in_aspect(elements, area, overlap, p.scale, p.offset, shape);
    if row_allowed(p, cutouts) {
        fit_landscape_controls(placed, w, h, area, shape)
    } else {
        placed
    }
}

pub fn layout_in(p: Preset, w: f32, h: f32, cutouts: &[Rect], picture: Rect) -> Layout
    requires { (p.count ≤ 32) × (length cutouts.now ≤ 16) × T (finite w) × T (finite h) }
    ensures { result ≡ layout_in_of p w h cutouts.now picture }
{
    laid_out(p, max(w, 1.0), max(h, 1.0), cutouts, picture)
}

pub fn layout_with_cutouts(p: Preset, w: f32, h: f32, cutouts: &[Rect]) -> Layout
    requires { (p.count ≤ 32) × (length cutouts.now ≤ 16) × T (finite w) × T (finite h) }
    ensures { result ≡ layout_with_cutouts_of p w h cutouts.now }
{
    let picture = Rect::new(0.0, 0.0, max(w, 1.0), max(h, 1.0));
    layout_in(p, w, h, cutouts, picture)
}

// `PlayerViewport::layout`.
#[tactic(auto, unfolding(crate::specs::Preset::viewport_layout_of))]
pub fn viewport_layout(
    p: Preset,
    w: f32,
    h: f32,
    picture: Rect,
    reusable_top: f32,
    covered_top: f32,
    cutouts: &[Rect],
) -> Layout
    requires { (p.count ≤ 32) × (length cutouts.now ≤ 16) × T (finite w) × T (finite h) × T (le k0 reusable_top) }
    ensures { result ≡ viewport_layout_of p w h picture reusable_top covered_top cutouts.now }
{
    let layout = layout_in(p, w, h, cutouts, picture);
    let anchored = anchor_toolbar(layout, w, h, reusable_top, 0.0, cutouts);
    if covered_top > 0.0 {
        anchor_toolbar(anchored, w, h, reusable_top, covered_top, cutouts)
    } else {
        anchored
    }
}

// Of settings that the reader accepted.
pub fn settings_layout(s: Settings) -> Layout
    requires { accepted_of s ≡ true }
    ensures { result ≡ settings_layout_of s }
{
    layout_in(s.preset, s.w, s.h, s.cutouts.as_slice(), s.picture)
}

pub fn settings_viewport(s: Settings, reusable_top: f32, covered_top: f32) -> Layout
    requires { (accepted_of s ≡ true) × T (le k0 reusable_top) }
    ensures { result ≡ settings_viewport_of s reusable_top covered_top }
{
    viewport_layout(
        s.preset,
        s.w,
        s.h,
        s.picture,
        reusable_top,
        covered_top,
        s.cutouts.as_slice(),
    )
}
