// `analog_camera_rails` of input.rs: rails beside a picture of full height, with a camera between the digital well and
// the stick.
#![tactic(auto)]

ghost use Rattle.std.specs.Prelude.{◌≡◌, ◌≤◌, length, IfSome};
ghost use Rattle.layout.specs.Layout.{Few};
ghost use Rattle.camera_rails.specs.CameraRails.{measure_rail_of, in_rail_of, camera_top_of, size_face_of, camera_places_of, camera_railed_of, anchored_rails_of, analog_camera_rails_of};

use cutouts::{avoid_cutouts, hits};
use defaults::analog_default;
use float::{min, pick};
use geometry::{CENTRED, Rect};
use layout::{Layout, with_inputs};
use places::{Places, placed, well_faces};
use search::{aspect, place_game_in_aspect};
use toolbar::{anchor_toolbar, reusable_top};

const RAIL_TOP: f32 = 32.0; // Below the compact toolbar and a gap.

const STICK: f32 = 128.0;

const OUTER: f32 = 4.0;

// What the picture of full height leaves at each side.
#[tactic(auto, unfolding(crate::specs::CameraRails::measure_rail_of))]
fn measure_rail(w: f32, picture: Rect, psp: bool) -> f32
    ensures { result ≡ measure_rail_of w picture psp }
{
    let full_height_width = pick(psp, picture.h * 480.0 / 272.0, picture.h * 4.0 / 3.0);
    (w - full_height_width) / 2.0
}

// A cutout reaches below the top of a rail.
#[tactic(auto, unfolding(crate::specs::CameraRails::in_rail_of))]
fn in_rail(w: f32, rail: f32, c: Rect) -> bool
    ensures { result ≡ in_rail_of w rail c }
{
    c.y + c.h > RAIL_TOP && (c.x < rail || c.x + c.w > w - rail)
}

// Where the highest of these cutouts begins, else the screen's end.
fn camera_top(w: f32, h: f32, rail: f32, cutouts: &[Rect]) -> f32
    ensures { result ≡ camera_top_of w h rail cutouts.now }
{
    let mut top = h;
    for c in cutouts {
        if in_rail(w, rail, *c) {
            top = min(top, c.y);
        }
    }
    top
}

// The digital well, above the camera and above the four keys.
#[tactic(auto, unfolding(crate::specs::CameraRails::size_face_of))]
fn size_face(w: f32, h: f32, rail: f32, cutouts: &[Rect]) -> f32
    ensures { result ≡ size_face_of w h rail cutouts.now }
{
    let camera_top = camera_top(w, h, rail, cutouts);
    min(
        min(min(rail - 8.0, 184.0), camera_top - RAIL_TOP - 8.0),
        h - RAIL_TOP - 224.0,
    )
}

#[tactic(auto, unfolding(crate::specs::CameraRails::camera_places_of))]
fn camera_places(w: f32, rail: f32, face: f32) -> Places
    ensures { result ≡ camera_places_of w rail face }
{
    let auxiliary_y = RAIL_TOP + face + 8.0;
    let faces = well_faces(w - OUTER - face / 2.0, RAIL_TOP + face / 2.0, face);
    let inner = rail - 48.0;
    let right = w - inner - 48.0;
    Places {
        faces,
        l1: Rect::new(inner, auxiliary_y + 52.0, 48.0, 48.0),
        l2: Rect::new(inner, auxiliary_y, 48.0, 48.0),
        r2: Rect::new(right, auxiliary_y, 48.0, 48.0),
        r1: Rect::new(right, auxiliary_y + 52.0, 48.0, 48.0),
        select: Rect::new(inner, auxiliary_y + 104.0, 48.0, 48.0),
        start: Rect::new(right, auxiliary_y + 104.0, 48.0, 48.0),
        l3: Rect::new(inner, auxiliary_y + 156.0, 48.0, 48.0),
        r3: Rect::new(right, auxiliary_y + 156.0, 48.0, 48.0),
    }
}

#[tactic(auto, unfolding(crate::specs::CameraRails::camera_railed_of))]
fn camera_railed(w: f32, h: f32, rail: f32, face: f32) -> Layout
    ensures { (result ≡ camera_railed_of w h rail face) × (result.count ≡ 12) × (result.stickcount ≡ 2) }
{
    let main_y = h - 24.0 - STICK;
    Layout {
        dpad: Rect::new(OUTER, RAIL_TOP, face, face),
        sticks: [
            Rect::new(OUTER, main_y, STICK, STICK),
            Rect::new(w - OUTER - STICK, main_y, STICK, STICK),
        ],
        ..placed(analog_default(w, h), camera_places(w, rail, face))
    }
}

// With the inputs of a psp, and the toolbar in its place.
#[tactic(auto, unfolding(crate::specs::CameraRails::anchored_rails_of))]
fn anchored_rails(
    w: f32,
    h: f32,
    picture: Rect,
    cutouts: &[Rect],
    psp: bool,
    rail: f32,
    face: f32,
) -> Layout
    requires { length cutouts.now ≤ 16 }
    ensures { (result ≡ anchored_rails_of w h picture cutouts.now psp rail face) × Few result }
{
    let layout = with_inputs(camera_railed(w, h, rail, face), psp);
    anchor_toolbar(layout, w, h, reusable_top(picture), 0.0, cutouts)
}

#[tactic(auto, unfolding(crate::specs::CameraRails::analog_camera_rails_of))]
pub fn analog_camera_rails(
    w: f32,
    h: f32,
    picture: Rect,
    cutouts: &[Rect],
    psp: bool,
) -> Option<Layout>
    requires { length cutouts.now ≤ 16 }
    ensures { (result ≡ analog_camera_rails_of w h picture cutouts.now psp) × IfSome result Few }
{
    if (w <= h * 1.35) | (h < 360.0) {
        return None;
    }
    let rail = measure_rail(w, picture, psp);
    if rail < 184.0 {
        return None;
    }
    let face = size_face(w, h, rail, cutouts);
    if face < 122.0 {
        return None;
    }
    let anchored = anchored_rails(w, h, picture, cutouts, psp, rail, face);
    if hits(anchored.elements().as_slice(), cutouts) {
        return None;
    }
    let clear = avoid_cutouts(anchored, w, h, cutouts);
    Some(place_game_in_aspect(clear, picture, false, 1.0, CENTRED, aspect(psp)))
}
