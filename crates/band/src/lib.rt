// `controller_band` of input.rs: mirrored controls in the room that a picture of full width leaves.
#![tactic(auto)]

ghost use Rattle.std.specs.Prelude.{◌≡◌, ◌≤◌, IfSome};
ghost use Rattle.layout.specs.Layout.{Few};
ghost use Rattle.band.specs.Band.{find_room_of, measure_band_of, plain_places_of, deep_places_of, middle_places_of, band_places_of, controller_band_of};
ghost use Rattle.band.specs.Controls.{band_controls_of};

use arranged::BOTTOM;
use float::{clamp, min, pick};
use geometry::{CENTRED, EMPTY, Rect};
use layout::{Layout, with_inputs};
use places::{Faces, Places, analog_controller, standard_controller, well_faces};
use search::aspect;
use toolbar::TOOLBAR_HEIGHT;

// The room below the whole picture and the width of a digital well in it.
#[derive(Clone, Copy)]
struct Room {
    available: f32,
    deep: bool,
    outer: f32,
    face: f32,
}

#[derive(Clone, Copy)]
struct Band {
    w: f32,
    h: f32,
    outer: f32,
    face: f32,
    stick: f32,
    digital_x: f32,
    main_y: f32,
    faces: Faces,
}

#[tactic(auto, unfolding(crate::specs::Band::find_room_of))]
fn find_room(w: f32, h: f32, analog: bool, psp: bool, picture: Rect) -> Room
    ensures { result ≡ find_room_of w h analog psp picture }
{
    let picture_height = pick(psp, w * 272.0 / 480.0, w * 0.75);
    let headroom = h - (picture.y + TOOLBAR_HEIGHT + picture_height);
    let available = headroom - BOTTOM;
    let deep = analog & (headroom >= 192.0);
    let outer = pick(deep, 8.0, 28.0);
    let width_limit = pick(
        analog,
        (w - 2.0 * outer - 16.0 - 204.0) / 4.0,
        (w - 2.0 * outer - 288.0) / 2.0,
    );
    let face = pick(deep, 128.0, min(min(available, width_limit), 184.0));
    Room {
        available,
        deep,
        outer,
        face,
    }
}

#[tactic(auto, unfolding(crate::specs::Band::measure_band_of))]
fn measure_band(w: f32, h: f32, analog: bool, room: Room) -> Band
    ensures { result ≡ measure_band_of w h analog room }
{
    let face = room.face;
    let stick = pick(room.deep, 176.0, face);
    let digital_gap = clamp(room.available - face - 48.0, 8.0, 16.0);
    let main_y = pick(
        room.deep,
        h - BOTTOM - 48.0 - digital_gap - face,
        h - BOTTOM - face,
    );
    let digital_x = pick(analog, room.outer + stick + 8.0, room.outer);
    let faces = well_faces(w - digital_x - face / 2.0, main_y + face / 2.0, face);
    Band {
        w,
        h,
        outer: room.outer,
        face,
        stick,
        digital_x,
        main_y,
        faces,
    }
}

// Without sticks: shoulders beside the wells, square system keys.
#[tactic(auto, unfolding(crate::specs::Band::plain_places_of))]
fn plain_places(b: Band) -> Places
    ensures { result ≡ plain_places_of b }
{
    let shoulder_x = b.outer + b.face + 8.0;
    let system_y = b.h - BOTTOM - 80.0;
    Places {
        faces: b.faces,
        l1: Rect::new(shoulder_x, b.main_y, 64.0, 64.0),
        l2: Rect::new(shoulder_x + 72.0, b.main_y, 64.0, 64.0),
        r2: Rect::new(b.w - shoulder_x - 136.0, b.main_y, 64.0, 64.0),
        r1: Rect::new(b.w - shoulder_x - 64.0, b.main_y, 64.0, 64.0),
        select: Rect::new(b.w / 2.0 - 104.0, system_y, 80.0, 80.0),
        start: Rect::new(b.w / 2.0 + 24.0, system_y, 80.0, 80.0),
        l3: EMPTY,
        r3: EMPTY,
    }
}

// Deep: a row of keys below the wells.
#[tactic(auto, unfolding(crate::specs::Band::deep_places_of))]
fn deep_places(b: Band) -> Places
    ensures { result ≡ deep_places_of b }
{
    let row_y = b.h - BOTTOM - 48.0;
    Places {
        faces: b.faces,
        l1: Rect::new(b.digital_x, row_y, 48.0, 48.0),
        l2: Rect::new(b.digital_x + 56.0, row_y, 48.0, 48.0),
        r2: Rect::new(b.w - b.digital_x - 104.0, row_y, 48.0, 48.0),
        r1: Rect::new(b.w - b.digital_x - 48.0, row_y, 48.0, 48.0),
        select: Rect::new(b.w / 2.0 - 52.0, row_y - 48.0, 48.0, 48.0),
        start: Rect::new(b.w / 2.0 + 4.0, row_y - 48.0, 48.0, 48.0),
        l3: Rect::new(b.digital_x + 112.0, row_y, 48.0, 48.0),
        r3: Rect::new(b.w - b.digital_x - 160.0, row_y, 48.0, 48.0),
    }
}

// Else: two rows of four keys in the middle.
#[tactic(auto, unfolding(crate::specs::Band::middle_places_of))]
fn middle_places(b: Band) -> Places
    ensures { result ≡ middle_places_of b }
{
    let auxiliary_x = (b.w - 204.0) / 2.0;
    let auxiliary_y = b.h - BOTTOM - 100.0;
    let upper = auxiliary_y + 0.0 * 52.0;
    let lower = auxiliary_y + 1.0 * 52.0;
    Places {
        faces: b.faces,
        l1: Rect::new(auxiliary_x + 0.0 * 52.0, upper, 48.0, 48.0),
        l2: Rect::new(auxiliary_x + 1.0 * 52.0, upper, 48.0, 48.0),
        r2: Rect::new(auxiliary_x + 2.0 * 52.0, upper, 48.0, 48.0),
        r1: Rect::new(auxiliary_x + 3.0 * 52.0, upper, 48.0, 48.0),
        select: Rect::new(auxiliary_x + 1.0 * 52.0, lower, 48.0, 48.0),
        start: Rect::new(auxiliary_x + 2.0 * 52.0, lower, 48.0, 48.0),
        l3: Rect::new(auxiliary_x + 0.0 * 52.0, lower, 48.0, 48.0),
        r3: Rect::new(auxiliary_x + 3.0 * 52.0, lower, 48.0, 48.0),
    }
}

fn band_places(analog: bool, deep: bool, b: Band) -> Places
    ensures { result ≡ band_places_of analog deep b }
{
    if !analog {
        plain_places(b)
    } else if deep {
        deep_places(b)
    } else {
        middle_places(b)
    }
}

// Without toolbar and game, which are put in place afterwards.
#[tactic(auto, unfolding(crate::specs::Controls::band_controls_of))]
fn band_controls(analog: bool, deep: bool, b: Band) -> Layout
    ensures { (result ≡ band_controls_of analog deep b) × Few result }
{
    let places = band_places(analog, deep, b);
    let dpad = Rect::new(b.digital_x, b.main_y, b.face, b.face);
    if analog {
        let y = b.h - BOTTOM - b.stick;
        let left = Rect::new(b.outer, y, b.stick, b.stick);
        let right = Rect::new(b.w - b.outer - b.stick, y, b.stick, b.stick);
        analog_controller(places, dpad, left, right)
    } else {
        standard_controller(places, dpad)
    }
}

#[tactic(auto, using(crate::proofs::Anew::band_anew, float::proofs::Ends::zero_le_max), unfolding(crate::specs::Band::controller_band_of))]
pub fn controller_band(w: f32, h: f32, analog: bool, psp: bool, picture: Rect) -> Option<Layout>
    ensures is { result ≡ controller_band_of w h analog psp picture }
    ensures few { IfSome result (λ l. Few l) }
{
    if w < 800.0 || h < 600.0 || w > h * 1.35 {
        return None;
    }
    let room = find_room(w, h, analog, psp, picture);
    if room.face < 122.0 {
        return None;
    }
    let band = measure_band(w, h, analog, room);
    let controls = band_controls(analog, room.deep, band);
    let reusable_top = toolbar::reusable_top(picture);
    let anchored = toolbar::anchor_toolbar(controls, w, h, reusable_top, 0.0, &[]);
    Some(search::place_game_in_aspect(
        with_inputs(anchored, psp),
        picture,
        false,
        1.0,
        CENTRED,
        aspect(psp),
    ))
}
