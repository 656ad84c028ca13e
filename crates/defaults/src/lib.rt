// `Layout::new`, `default_in`, `analog_default` and `psp` of input.rs: the layouts before a user changes them. The screen's w and h, cutouts and
// picture are parameters of their own, as in the Rust and in each definition.
#![tactic(auto)]

ghost use Rattle.std.specs.Prelude.{◌≡◌, map, ◌≤◌};
ghost use Rattle.layout.specs.Layout.{Few};
ghost use Rattle.defaults.specs.Controls.{finished_in_of, analog_controls_of};
ghost use Rattle.defaults.specs.Defaults.{wider_of, try_dock_of, try_side_of, try_band_of, default_in_of, default_with_cutouts_of, new_layout_of, size_halves_of, measure_halves_of, half_places_of, scaled_rect_of, shrunk_of, analog_default_of, psp_of};

use arranged::{anchored, docked, finished, side_controls};
use band::controller_band;
use float::{clamp, max, pick};
use geometry::{CENTRED, Rect};
use layout::{Elements, Layout};
use places::{Faces, Places, analog_controller, well_faces};
use search::place_game_in;

// The other layout, if its game is wider by more than 0.01.
#[tactic(auto, unfolding(crate::specs::Defaults::wider_of))]
fn wider(layout: Layout, other: Layout) -> Layout
    ensures { result ≡ wider_of layout other }
{
    if other.game.w > layout.game.w + 0.01 {
        other
    } else {
        layout
    }
}

// Controls with the toolbar at its place and the largest game in the picture's area that is clear of all elements. No game
// is looked for on the whole screen, as `finished` does: this one takes its place.
#[tactic(auto, using(crate::proofs::Anew::clear_anew))]
fn finished_in(controls: Layout, w: f32, h: f32, picture: Rect) -> Layout
    requires { Few controls }
    ensures { result ≡ finished_in_of controls w h picture }
{
    place_game_in(anchored(controls, w, h), picture, false, 1.0, CENTRED)
}

// Shoulders and system keys between the thumb wells, where there is room for them.
#[tactic(auto, using(arranged::proofs::ControlLaws::arranged_finished), unfolding(crate::specs::Defaults::try_dock_of))]
fn try_dock(rails: Layout, w: f32, h: f32, picture: Rect) -> Layout
    ensures { result ≡ try_dock_of rails w h picture }
{
    let cluster = rails.dpad.w;
    let shoulder = (cluster - 8.0) / 2.0;
    let middle = w - 2.0 * (16.0 + cluster);
    if cluster >= 160.0 && middle >= 2.0 * shoulder + 16.0 {
        wider(rails, finished_in(docked(w, h, true), w, h, picture))
    } else {
        rails
    }
}

// Rails beside the picture, on a wide screen.
#[tactic(auto, using(arranged::proofs::ControlLaws::side_finished), unfolding(crate::specs::Defaults::try_side_of))]
fn try_side(rails: Layout, w: f32, h: f32, cutouts: &[Rect], picture: Rect) -> Layout
    ensures { result ≡ try_side_of rails w h cutouts.now picture }
{
    if w > h * 1.35 && h >= 304.0 {
        let controls = side_controls(w, h, picture.h, cutouts);
        wider(rails, finished_in(controls, w, h, picture))
    } else {
        rails
    }
}

// A band below the picture, where there is one.
#[tactic(auto, unfolding(crate::specs::Defaults::try_band_of))]
fn try_band(layout: Layout, w: f32, h: f32, analog: bool, picture: Rect) -> Layout
    ensures { result ≡ try_band_of layout w h analog picture }
{
    match controller_band(w, h, analog, false, picture) {
        Some(band) => wider(layout, band),
        None => layout,
    }
}

pub fn default_in(w: f32, h: f32, cutouts: &[Rect], picture: Rect) -> Layout
    ensures { (result ≡ default_in_of w h cutouts.now picture) × (result.count ≡ 10) × (result.stickcount ≡ 0) }
{
    let rails = finished_in(docked(w, h, false), w, h, picture);
    let compact = try_dock(rails, w, h, picture);
    let sided = try_side(compact, w, h, cutouts, picture);
    try_band(sided, w, h, false, picture)
}

pub fn default_with_cutouts(w: f32, h: f32, cutouts: &[Rect]) -> Layout
    ensures { (result ≡ default_with_cutouts_of w h cutouts.now) × (result.count ≡ 10) × (result.stickcount ≡ 0) }
{
    default_in(w, h, cutouts, Rect::new(0.0, 0.0, w, h))
}

// `Layout::new`.
pub fn new_layout(w: f32, h: f32) -> Layout
    ensures { (result ≡ new_layout_of w h) × (result.count ≡ 10) × (result.stickcount ≡ 0) }
{
    default_with_cutouts(w, h, &[])
}

#[derive(Clone, Copy)]
struct Sizes {
    bottom: f32,
    stick: f32,
    face: f32,
    column: f32,
    middle: bool,
    shoulder: f32,
}

#[tactic(auto, unfolding(crate::specs::Defaults::size_halves_of))]
fn size_halves(w: f32, h: f32) -> Sizes
    ensures { result ≡ size_halves_of w h }
{
    let landscape = w > h * 1.35;
    let bottom = pick(landscape, clamp(h - 336.0, 24.0, 32.0), 32.0);
    let stick = pick(landscape, 104.0, clamp(w / 2.0 - 76.0, 104.0, 128.0));
    let face = pick(
        landscape,
        clamp(h - 56.0 - 48.0 - 16.0 - stick - bottom, 122.0, 184.0),
        clamp(w / 2.0 - 20.0, 122.0, 184.0),
    );
    let column = max(face, stick + 56.0);
    let middle = !landscape & (w - 2.0 * (16.0 + column) >= 192.0);
    let shoulder = pick(middle, 88.0, (column - 8.0) / 2.0);
    Sizes {
        bottom,
        stick,
        face,
        column,
        middle,
        shoulder,
    }
}

// The digital well at digital_x and face_y, the stick at main_y, and the left shoulders L1 at x1 and y1, L2 at x2 and y2.
#[derive(Clone, Copy)]
struct Halves {
    w: f32,
    stick: f32,
    face: f32,
    shoulder: f32,
    digital_x: f32,
    main_y: f32,
    face_y: f32,
    faces: Faces,
    x1: f32,
    x2: f32,
    y1: f32,
    y2: f32,
}

#[tactic(auto, unfolding(crate::specs::Defaults::measure_halves_of))]
fn measure_halves(w: f32, h: f32, s: Sizes) -> Halves
    ensures { result ≡ measure_halves_of w h s }
{
    let main_y = h - s.bottom - s.stick;
    let face_y = main_y - 8.0 - s.face;
    let faces = well_faces(w - 16.0 - s.column / 2.0, face_y + s.face / 2.0, s.face);
    let inner = 16.0 + s.column + 8.0;
    let x1 = pick(s.middle, inner, 16.0 + 0.0);
    let x2 = pick(s.middle, inner, 16.0 + (s.shoulder + 8.0));
    let y1 = pick(s.middle, face_y + 56.0, face_y - 56.0);
    let y2 = pick(s.middle, face_y + 0.0, face_y - 56.0);
    Halves {
        w,
        stick: s.stick,
        face: s.face,
        shoulder: s.shoulder,
        digital_x: 16.0 + (s.column - s.face) / 2.0,
        main_y,
        face_y,
        faces,
        x1,
        x2,
        y1,
        y2,
    }
}

#[tactic(auto, unfolding(crate::specs::Defaults::half_places_of))]
fn half_places(b: Halves) -> Places
    ensures { result ≡ half_places_of b }
{
    let left = 16.0 + b.stick + 8.0;
    let right = b.w - 16.0 - b.stick - 56.0;
    let lower = b.main_y + b.stick - 48.0;
    Places {
        faces: b.faces,
        l1: Rect::new(b.x1, b.y1, b.shoulder, 48.0),
        l2: Rect::new(b.x2, b.y2, b.shoulder, 48.0),
        r2: Rect::new(b.w - b.x2 - b.shoulder, b.y2, b.shoulder, 48.0),
        r1: Rect::new(b.w - b.x1 - b.shoulder, b.y1, b.shoulder, 48.0),
        select: Rect::new(left, b.main_y, 48.0, 48.0),
        start: Rect::new(right, b.main_y, 48.0, 48.0),
        l3: Rect::new(left, lower, 48.0, 48.0),
        r3: Rect::new(right, lower, 48.0, 48.0),
    }
}

// For a screen of 360 by 360 at least, without toolbar and game.
#[tactic(auto, unfolding(crate::specs::Controls::analog_controls_of))]
fn analog_controls(w: f32, h: f32) -> Layout
    ensures { (result ≡ analog_controls_of w h) × (result.count ≡ 12) × (result.stickcount ≡ 2) }
{
    let b = measure_halves(w, h, size_halves(w, h));
    let dpad = Rect::new(b.digital_x, b.face_y, b.face, b.face);
    let left = Rect::new(16.0, b.main_y, b.stick, b.stick);
    let right = Rect::new(b.w - 16.0 - b.stick, b.main_y, b.stick, b.stick);
    analog_controller(half_places(b), dpad, left, right)
}

#[derive(Clone, Copy, PartialEq)]
struct Size {
    w: f32,
    h: f32,
}

fn scaled_rect(requested: Size, full: Size, r: Rect) -> Rect
    ensures { result ≡ scaled_rect_of requested full r }
{
    Rect::new(
        r.x * requested.w / full.w,
        r.y * requested.h / full.h,
        r.w * requested.w / full.w,
        r.h * requested.h / full.h,
    )
}

fn scale(elements: &mut [Rect], requested: Size, full: Size)
    ensures { elements.new ≡ map (scaled_rect_of requested full) elements.old }
{
    for r in elements.iter_mut() {
        *r = scaled_rect(requested, full, *r);
    }
}

// For a moment a surface can be smaller than any layout that can be used; all elements are scaled to it then.
fn shrunk(layout: Layout, requested: Size, full: Size) -> Layout
    requires { Few layout }
    ensures { (result ≡ shrunk_of layout requested full) × (result.count ≡ layout.count) × (result.stickcount ≡ layout.stickcount) }
{
    if requested == full {
        return layout;
    }
    let Elements { mut at, count } = layout.elements();
    scale(&mut at[..count], requested, full);
    layout.set_elements(&at[..count])
}

pub fn analog_default(w: f32, h: f32) -> Layout
    ensures { (result ≡ analog_default_of w h) × (result.count ≡ 12) × (result.stickcount ≡ 2) }
{
    let requested = Size { w, h };
    let full = Size {
        w: max(w, 360.0),
        h: max(h, 360.0),
    };
    let layout = shrunk(analog_controls(full.w, full.h), requested, full);
    let screen = Rect::new(0.0, 0.0, w, h);
    try_band(finished(layout, w, h), w, h, true, screen)
}

pub fn psp(w: f32, h: f32) -> Layout
    ensures { (result ≡ psp_of w h) × (result.count ≡ 8) × (result.stickcount ≡ 1) }
{
    analog_default(w, h).psp_inputs()
}
