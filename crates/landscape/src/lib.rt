// `fit_landscape_controls` of input.rs: on a wide screen, the keys beside the sticks in a row at the bottom.
#![tactic(auto)]

ghost use Rattle.std.specs.Prelude.{◌≡◌, ◌≤◌};
ghost use Rattle.layout.specs.Layout.{Few};
ghost use Rattle.landscape.specs.Landscape.{measure_key_row_of, tight_of, place_in_row_of, row_sticks_of, with_key_row_of, fit_landscape_controls_of};

use geometry::{CENTRED, Rect};
use layout::{Label, Layout};
use places::move_all;
use search::place_game_in_aspect;
use toolbar::TOOLBAR_HEIGHT;

// The sizes of the digital wells, the sticks and the shoulders, and where they and the row lie.
#[derive(Clone, Copy)]
struct KeyRow {
    w: f32,
    face: f32,
    stick: f32,
    shoulder: f32,
    row_y: f32,
    stick_y: f32,
    face_y: f32,
    shoulder_y: f32,
}

#[tactic(auto, unfolding(crate::specs::Landscape::measure_key_row_of))]
fn measure_key_row(w: f32, h: f32, face: f32, stick: f32) -> KeyRow
    ensures { result ≡ measure_key_row_of w h face stick }
{
    let row_y = h - 4.0 - 48.0;
    let stick_y = row_y - 8.0 - stick;
    let face_y = stick_y - 8.0 - face;
    KeyRow {
        w,
        face,
        stick,
        shoulder: (face - 8.0) / 2.0,
        row_y,
        stick_y,
        face_y,
        shoulder_y: face_y - 8.0 - 48.0,
    }
}

// The shoulders would reach into the toolbar, or a thumb's target is small already.
#[tactic(auto, unfolding(crate::specs::Landscape::tight_of))]
fn tight(row: KeyRow) -> bool
    ensures { result ≡ tight_of row }
{
    row.shoulder_y < TOOLBAR_HEIGHT || row.face < 122.0 || row.stick < 104.0
}

// The place of a control by its label: the faces go by dx and dy.
#[tactic(auto, unfolding(crate::specs::Landscape::place_in_row_of))]
fn place_in_row(row: KeyRow, dx: f32, dy: f32, bounds: Rect, label: Label) -> Rect
    ensures { result ≡ place_in_row_of row dx dy bounds label }
{
    let w = row.w;
    let shoulder = row.shoulder;
    let y = row.shoulder_y;
    match label {
        Label::Tri | Label::O | Label::X | Label::Sq => bounds.shifted(dx, dy),
        Label::L1 => Rect::new(16.0, y, shoulder, 48.0),
        Label::L2 => Rect::new(24.0 + shoulder, y, shoulder, 48.0),
        Label::R2 => Rect::new(w - 24.0 - 2.0 * shoulder, y, shoulder, 48.0),
        Label::R1 => Rect::new(w - 16.0 - shoulder, y, shoulder, 48.0),
        Label::Select => Rect::new(72.0, row.row_y, 48.0, 48.0),
        Label::Start => Rect::new(w - 120.0, row.row_y, 48.0, 48.0),
        Label::L3 => Rect::new(16.0, row.row_y, 48.0, 48.0),
        Label::R3 => Rect::new(w - 64.0, row.row_y, 48.0, 48.0),
    }
}

// The sticks above the row, the right one if there are two. Apart from `with_key_row`: its `if` there would be a join.
#[tactic(auto, unfolding(crate::specs::Landscape::row_sticks_of))]
fn row_sticks(sticks: [Rect; 2], count: usize, row: KeyRow) -> [Rect; 2]
    ensures { result ≡ row_sticks_of sticks count row }
{
    let mut out = sticks;
    out[0] = Rect::new(16.0, row.stick_y, row.stick, row.stick);
    if count > 1 {
        out[1] = Rect::new(row.w - 16.0 - row.stick, row.stick_y, row.stick, row.stick);
    }
    out
}

// The layout with the row.
fn with_key_row(l: Layout, row: KeyRow) -> Layout
    requires { l.count ≤ 12 }
    ensures { (result ≡ with_key_row_of l row) × (result.count ≡ l.count) × (result.stickcount ≡ l.stickcount) }
{
    let actions = l.action_bounds();
    let dx = row.w - 16.0 - row.face - actions.x;
    let dy = row.face_y - actions.y;
    let mut controls = l.controls;
    move_all(&mut controls[..l.count], |c| {
        place_in_row(row, dx, dy, c.bounds, c.label)
    });
    Layout {
        dpad: Rect::new(16.0, row.face_y, row.face, row.face),
        controls,
        sticks: row_sticks(l.sticks, l.stickcount, row),
        ..l
    }
}

// The row is kept only if it makes the game wider.
#[tactic(auto, unfolding(crate::specs::Landscape::fit_landscape_controls_of))]
pub fn fit_landscape_controls(l: Layout, w: f32, h: f32, picture: Rect, aspect: f32) -> Layout
    requires { Few l }
    ensures { result ≡ fit_landscape_controls_of l w h picture aspect }
{
    if w <= h * 1.35 || l.stickcount == 0 {
        return l;
    }
    let row = measure_key_row(w, h, l.dpad.w, l.sticks[0].w);
    if tight(row) {
        return l;
    }
    let fitted = place_game_in_aspect(with_key_row(l, row), picture, false, 1.0, CENTRED, aspect);
    if fitted.game.w <= l.game.w + 0.01 {
        return l;
    }
    fitted
}
