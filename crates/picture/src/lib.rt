// Controls beside or below a picture that keeps its size: input/picture.rs.
#![tactic(auto)]

ghost use Rattle.std.specs.Prelude.{◌≡◌, ◌≤◌, T, IfSome};
ghost use Rattle.std.specs.Float.Ieee.{le};
ghost use Rattle.float.specs.Float.{k0};
ghost use Rattle.fits.specs.Fits.{fits_of};
ghost use Rattle.layout.specs.Layout.{Few};
ghost use Rattle.picture.specs.Picture.{diamond_of, auxiliary_of, arrange_of, square_of, measure_stack_of, cramped_of, stacked_of, measure_row_of, center_keys_of, row_places_of, rowed_of, vertical_of, horizontal_of, base_of, kept, controls_of};

use fits::fits;
use float::{clamp, max, min, pick};
use geometry::Rect;
use layout::Layout;
use places::{Faces, Places, placed};

const GAP: f32 = 8.0;

const KEY: f32 = 44.0;

const MIN_WELL: f32 = 112.0; // Four separate caps of 44 points with gaps between them.

// The four face caps in a square well.
#[tactic(auto, unfolding(crate::specs::Picture::diamond_of))]
pub fn diamond(rect: Rect) -> Faces
    ensures { result ≡ diamond_of rect }
{
    let cap = places::cap(rect.w);
    let step = (rect.w - cap) / 2.0;
    let x = rect.x + (rect.w - cap) / 2.0;
    let y = rect.y + (rect.h - cap) / 2.0;
    Faces {
        tri: Rect::new(x + 0.0, y + -step, cap, cap),
        o: Rect::new(x + step, y + 0.0, cap, cap),
        x: Rect::new(x + 0.0, y + step, cap, cap),
        sq: Rect::new(x + -step, y + 0.0, cap, cap),
    }
}

// The face caps as given, and in two columns the shoulders, the system and the stick keys.
#[tactic(auto, unfolding(crate::specs::Picture::auxiliary_of))]
pub fn auxiliary(faces: Faces, left: Rect, right: Rect, shoulders: f32, system: f32) -> Places
    ensures { result ≡ auxiliary_of faces left right shoulders system }
{
    let pair = clamp((left.w - 12.0 - GAP) / 2.0, KEY, 64.0);
    let edge = left.x + (left.w - 2.0 * pair - GAP) / 2.0;
    let right_edge = right.x + (right.w - 2.0 * pair - GAP) / 2.0;
    Places {
        faces,
        l1: Rect::new(edge, shoulders, pair, KEY),
        l2: Rect::new(edge + pair + GAP, shoulders, pair, KEY),
        r2: Rect::new(right_edge, shoulders, pair, KEY),
        r1: Rect::new(right_edge + pair + GAP, shoulders, pair, KEY),
        select: Rect::new(left.x + 6.0, system, 64.0, KEY),
        start: Rect::new(right.x + right.w - 70.0, system, 64.0, KEY),
        l3: Rect::new(left.x + left.w - 50.0, system, KEY, KEY),
        r3: Rect::new(right.x + 6.0, system, KEY, KEY),
    }
}

// A layout with its controller's elements placed. Of the two sticks it uses as many as it has.
#[tactic(auto, unfolding(crate::specs::Picture::arrange_of))]
fn arrange(l: Layout, dpad: Rect, places: Places, first: Rect, second: Rect) -> Layout
    requires { l.count ≤ 12 }
    ensures { (result ≡ arrange_of l dpad places first second) × (result.count ≡ l.count) × (result.stickcount ≡ l.stickcount) }
{
    Layout {
        dpad,
        sticks: [first, second],
        ..placed(l, places)
    }
}

// A square in the middle of a column.
fn square(column: Rect, y: f32, size: f32) -> Rect
    ensures { result ≡ square_of column y size }
{
    Rect::new(column.x + (column.w - size) / 2.0, y, size, size)
}

// The width and the lower edge that both columns have, the size of a stick, 0 without one, and of the wells.
#[derive(Clone, Copy)]
struct Stack {
    width: f32,
    bottom: f32,
    stick: f32,
    well: f32,
}

#[tactic(auto, unfolding(crate::specs::Picture::measure_stack_of))]
fn measure_stack(left: Rect, right: Rect, analog: bool) -> Stack
    ensures { result ≡ measure_stack_of left right analog }
{
    let width = min(left.w, right.w);
    let top = max(max(left.y, right.y), 24.0);
    let bottom = min(left.y + left.h, right.y + right.h) - 14.0;
    let largest = min(
        clamp(width - 12.0, 96.0, 128.0),
        bottom - top - 2.0 * KEY - 3.0 * GAP - MIN_WELL,
    );
    let stick = pick(analog, largest, 0.0);
    let taken = pick(analog, stick + GAP, 0.0);
    let well = min(
        min(width - 12.0, 164.0),
        bottom - top - 2.0 * KEY - 2.0 * GAP - taken,
    );
    Stack {
        width,
        bottom,
        stick,
        well,
    }
}

#[tactic(auto, unfolding(crate::specs::Picture::cramped_of))]
fn cramped(s: Stack, analog: bool) -> bool
    ensures { result ≡ cramped_of s analog }
{
    (analog & (s.stick < 96.0)) | ((s.well < MIN_WELL) | (s.width < 124.0))
}

#[tactic(auto, unfolding(crate::specs::Picture::stacked_of))]
fn stacked(l: Layout, left: Rect, right: Rect, analog: bool, s: Stack) -> Layout
    requires { l.count ≤ 12 }
    ensures { (result ≡ stacked_of l left right analog s) × (result.count ≡ l.count) × (result.stickcount ≡ l.stickcount) }
{
    let system = s.bottom - KEY;
    let primary = system - GAP - s.stick;
    let digital = pick(analog, primary - GAP - s.well, system - GAP - s.well);
    let faces = diamond(square(right, digital, s.well));
    let places = auxiliary(faces, left, right, digital - GAP - KEY, system);
    let dpad = square(left, digital, s.well);
    let first = square(left, primary, s.stick);
    let second = square(right, primary, s.stick);
    arrange(l, dpad, places, first, second)
}

// A stack of controls in each of two columns, where there is room.
#[tactic(auto, unfolding(crate::specs::Picture::vertical_of))]
pub fn vertical(base: Layout, left: Rect, right: Rect, analog: bool) -> Option<Layout>
    requires { Few base }
    ensures { (result ≡ vertical_of base left right analog) × IfSome result Few }
{
    let s = measure_stack(left, right, analog);
    if cramped(s, analog) {
        return None;
    }
    Some(stacked(base, left, right, analog, s))
}

// The wells of a row and the room between its halves. `digital` and `rightdigital` are the outer distances of the
// d-pad and of the face caps.
#[derive(Clone, Copy)]
struct Row {
    well: f32,
    required: f32,
    top: f32,
    y: f32,
    digital: f32,
    rightdigital: f32,
    span: f32,
    middleleft: f32,
    middleright: f32,
}

#[tactic(auto, unfolding(crate::specs::Picture::measure_row_of))]
fn measure_row(w: f32, band: Rect, analog: bool, psp: bool) -> Row
    ensures { result ≡ measure_row_of w band analog psp }
{
    let columns = pick(psp, 3.0, pick(analog, 4.0, 2.0));
    let required = pick(analog & !psp, 240.0, 136.0);
    let between_wells = pick(psp, GAP, pick(analog, 2.0 * GAP, 0.0));
    let well = min(
        min(
            (w - 24.0 - between_wells - 2.0 * GAP - required) / columns,
            band.h - KEY - 2.0 * GAP - 12.0,
        ),
        164.0,
    );
    let top = band.y + (band.h - well - KEY - GAP) / 2.0;
    let digital = pick(analog, 12.0 + well + GAP, 12.0);
    let right_digital = pick(psp, 12.0, digital);
    let span = pick(analog, 2.0 * well + GAP, well);
    Row {
        well,
        required,
        top,
        y: top + KEY + GAP,
        digital,
        rightdigital: right_digital,
        span,
        middleleft: digital + well + GAP,
        middleright: w - right_digital - well - GAP,
    }
}

// System and stick keys lie between the two halves, never where a thumb goes from a stick to the well beside it.
fn center_keys(p: Places, center: f32) -> Places
    ensures { result ≡ center_keys_of p center }
{
    let mut out = p;
    out.select.x = center - 68.0;
    out.start.x = center + 4.0;
    out.l3.x = center - 120.0;
    out.r3.x = center + 76.0;
    out
}

#[tactic(auto, unfolding(crate::specs::Picture::row_places_of))]
fn row_places(w: f32, row: Row) -> Places
    ensures { result ≡ row_places_of w row }
{
    let well = row.well;
    let span = row.span;
    let faces = diamond(Rect::new(w - row.rightdigital - well, row.y, well, well));
    let left = Rect::new(12.0, 0.0, span, 0.0);
    let right = Rect::new(w - 12.0 - span, 0.0, span, 0.0);
    let places = auxiliary(faces, left, right, row.top, row.y + well - KEY);
    center_keys(places, (row.middleleft + row.middleright) / 2.0)
}

#[tactic(auto, unfolding(crate::specs::Picture::rowed_of))]
fn rowed(l: Layout, w: f32, row: Row) -> Layout
    requires { l.count ≤ 12 }
    ensures { (result ≡ rowed_of l w row) × (result.count ≡ l.count) × (result.stickcount ≡ l.stickcount) }
{
    let well = row.well;
    let places = row_places(w, row);
    let dpad = Rect::new(row.digital, row.y, well, well);
    let first = Rect::new(12.0, row.y, well, well);
    let second = Rect::new(w - 12.0 - well, row.y, well, well);
    arrange(l, dpad, places, first, second)
}

// Sticks and wells side by side in a band, where there is room.
#[tactic(auto, unfolding(crate::specs::Picture::horizontal_of))]
pub fn horizontal(base: Layout, w: f32, band: Rect, analog: bool, psp: bool) -> Option<Layout>
    requires { Few base }
    ensures { (result ≡ horizontal_of base w band analog psp) × IfSome result Few }
{
    let row = measure_row(w, band, analog, psp);
    if (row.well < MIN_WELL) | (row.middleright - row.middleleft < row.required) {
        return None;
    }
    Some(rowed(base, w, row))
}

// A layout that is there and fits.
fn fitting(layout: Option<Layout>, w: f32, h: f32, game: Rect, holes: &[Rect]) -> Option<Layout>
    requires { IfSome layout Few }
    ensures { (result ≡ kept (λ l. fits_of l w h game holes.now) layout) × IfSome result Few }
{
    layout.filter(|l| fits(*l, w, h, game, holes))
}

// The layout whose controls are moved.
#[tactic(auto, unfolding(crate::specs::Picture::base_of))]
pub fn base(w: f32, h: f32, analog: bool, psp: bool) -> Layout
    ensures { (result ≡ base_of w h analog psp) × Few result }
{
    if psp {
        return defaults::psp(w, h);
    }
    if analog {
        return defaults::analog_default(w, h);
    }
    arranged::arranged(w, h, false)
}

// A row below the picture, else stacks below it, else stacks beside it: the first that fits. The picture keeps its
// size, and where nothing fits there is no layout.
pub fn controls(
    w: f32,
    h: f32,
    game: Rect,
    analog: bool,
    psp: bool,
    holes: &[Rect],
) -> Option<Layout>
    requires { T (le k0 w) × T (le k0 h) }
    ensures { (result ≡ controls_of w h game analog psp holes.now) × IfSome result Few }
{
    let base = base(w, h, analog, psp);
    let bottom = clamp(game.y + game.h, 0.0, h);
    let band = Rect::new(0.0, bottom, w, h - bottom);
    let left = Rect::new(0.0, 0.0, clamp(game.x, 0.0, w), h);
    let right_x = clamp(game.x + game.w, 0.0, w);
    let right = Rect::new(right_x, 0.0, w - right_x, h);
    let below_left = Rect::new(0.0, bottom, w / 2.0, band.h);
    let below_right = Rect::new(w / 2.0, bottom, w / 2.0, band.h);
    fitting(horizontal(base, w, band, analog, psp), w, h, game, holes)
        .or_else(|| fitting(
            vertical(base, below_left, below_right, analog),
            w,
            h,
            game,
            holes,
        ))
        .or_else(|| fitting(vertical(base, left, right, analog), w, h, game, holes))
}
