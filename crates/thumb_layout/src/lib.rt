// The functions for hosts in other languages, through the C calling convention; host/include/thumb_layout.h declares them.
// An answer below 0 is minus the number of a refusal, and then every lent output is as it was.
#![tactic(auto)]

ghost use Rattle.std.specs.Prelude.{◌≡◌, ◌+◌, ◌≤◌, pos, neg_ℤ, length};
ghost use Rattle.std.specs.Int.Signed.{mag};
ghost use Rattle.refusal.specs.Refusal.{answered, refusal_number};
ghost use Rattle.order.specs.Demands.{WidestWritten};
ghost use Rattle.order.specs.Orders.{layout_of, layout_output_of, viewport_output_of};
ghost use Rattle.tracker.specs.Tracker.{Press, MoveTo, Lift};
ghost use Rattle.film_sheet.specs.Film.{film_sheet_of};
ghost use Rattle.thumb_layout.specs.Interface.{number_of, two_of, four_of, tl_layout_of, tl_touch_of, tl_viewport_layout_of, tl_film_of, tl_safe_content_of, tl_safe_content_output_of, tl_safe_edges_of, tl_safe_edges_output_of};
ghost use Rattle.thumb_layout.specs.Interface.{masks_numbers, tl_masks_of, tl_tracker_of, tl_write_order_of, tl_write_order_output_of};

use film_sheet::film_sheet;
use order::{order_lifted, order_moved, order_pressed};
use order_writer::write_numbers;
use refusal::Refusal;
use safe_area::{safe_content, safe_edges};
use tracker::Tracker;

// ---- orders

// Demand 3 of the mission is the third clause.
#[tactic(auto, unfolding(crate::specs::Interface::tl_layout_of), using(crate::proofs::InterfaceLaws::layout_small))]
#[unsafe(no_mangle)]
pub extern "C" fn tl_layout(order: &[u8], out: &mut [u8]) -> i32
    ensures answer { result ≡ tl_layout_of order.now out.old }
    ensures output { out.new ≡ layout_output_of order.now out.old }
    ensures widest { WidestWritten order.now (layout_of order.now out.old) out.new }
{
    bytes_number(order::layout(order, out))
}

#[tactic(auto, unfolding(crate::specs::Interface::tl_touch_of))]
#[unsafe(no_mangle)]
pub extern "C" fn tl_touch(order: &[u8], x: f32, y: f32, previous: u16) -> i32
    ensures { result ≡ tl_touch_of order.now x y previous }
{
    match order::touch(order, x, y, previous) {
        Ok(mask) => i32::from(mask),
        Err(refusal) => minus(refusal),
    }
}

#[tactic(auto, unfolding(crate::specs::Interface::tl_viewport_layout_of), using(crate::proofs::InterfaceLaws::viewport_small))]
#[unsafe(no_mangle)]
pub extern "C" fn tl_viewport_layout(
    order: &[u8],
    reusable_top: f32,
    covered_top: f32,
    out: &mut [u8],
) -> i32
    ensures answer { result ≡ tl_viewport_layout_of order.now reusable_top covered_top out.old }
    ensures output { out.new ≡ viewport_output_of order.now reusable_top covered_top out.old }
{
    bytes_number(order::viewport_layout(order, reusable_top, covered_top, out))
}

// How many bytes were written, or minus a refusal.
fn bytes_number(answer: Result<usize, Refusal>) -> i32
    requires { mag (number_of (answered answer)) ≤ 827 }
    ensures { result ≡ number_of (answered answer) }
{
    match answer {
        Ok(n) => n as i32,
        Err(refusal) => minus(refusal),
    }
}

fn minus(refusal: Refusal) -> i32
    ensures { result ≡ neg_ℤ (pos (refusal_number refusal)) }
{
    -i32::from(u8::from(refusal))
}

// ---- fingers

// The finger's mask and the combined mask, or minus the number of a refusal in both.
#[repr(C)]
#[derive(Clone, Copy)]
pub struct Masks {
    pub mask: i32,
    pub combined: i32,
}

impl From<Result<(u16, u16), Refusal>> for Masks {
    ghost from_gives = { λ answer masks. masks ≡ masks_numbers (answered answer) };

    fn from(answer: Result<(u16, u16), Refusal>) -> Masks {
        match answer {
            Ok((mask, combined)) => Masks {
                mask: i32::from(mask),
                combined: i32::from(combined),
            },
            Err(refusal) => {
                let number = minus(refusal);
                Masks {
                    mask: number,
                    combined: number,
                }
            }
        }
    }
}

#[tactic(auto, unfolding(crate::specs::Interface::tl_masks_of, crate::specs::Interface::tl_tracker_of))]
#[unsafe(no_mangle)]
pub extern "C" fn tl_press(t: &mut Tracker, order: &[u8], finger: u8, x: f32, y: f32) -> Masks
    ensures masks { result ≡ tl_masks_of t.old order.now finger (Press finger x y) }
    ensures tracker { t.new ≡ tl_tracker_of t.old order.now (Press finger x y) }
{
    let tracked = order_pressed(*t, order, finger, x, y);
    *t = tracked.next;
    Masks::from(tracked.answer)
}

#[tactic(auto, unfolding(crate::specs::Interface::tl_masks_of, crate::specs::Interface::tl_tracker_of))]
#[unsafe(no_mangle)]
pub extern "C" fn tl_move(t: &mut Tracker, order: &[u8], finger: u8, x: f32, y: f32) -> Masks
    ensures masks { result ≡ tl_masks_of t.old order.now finger (MoveTo finger x y) }
    ensures tracker { t.new ≡ tl_tracker_of t.old order.now (MoveTo finger x y) }
{
    let tracked = order_moved(*t, order, finger, x, y);
    *t = tracked.next;
    Masks::from(tracked.answer)
}

#[tactic(auto, unfolding(crate::specs::Interface::tl_masks_of, crate::specs::Interface::tl_tracker_of))]
#[unsafe(no_mangle)]
pub extern "C" fn tl_lift(t: &mut Tracker, order: &[u8], finger: u8) -> Masks
    ensures masks { result ≡ tl_masks_of t.old order.now finger (Lift finger) }
    ensures tracker { t.new ≡ tl_tracker_of t.old order.now (Lift finger) }
{
    let tracked = order_lifted(*t, order, finger);
    *t = tracked.next;
    Masks::from(tracked.answer)
}

// ---- settings

// No refusal of an order: numbers that are no whole rectangles.
const BAD_CALL: i32 = -100;

// The numbers are the screen's w and h, the picture, scale and offset; mode and fit are the bytes of tags 3 and 4. Cutouts and saved
// are four numbers a rectangle.
#[tactic(auto, unfolding(crate::specs::Interface::tl_write_order_of, crate::specs::Interface::tl_write_order_output_of, crate::specs::Interface::tested_from, crate::specs::Interface::whole_rects, prelude::specs::Answer::must), using(crate::proofs::InterfaceLaws::tested_small))]
#[unsafe(no_mangle)]
pub extern "C" fn tl_write_order(
    numbers: &[f32; 9],
    mode: u8,
    fit: u8,
    cutouts: &[f32],
    saved: &[f32],
    out: &mut [u8],
) -> i32
    ensures answer { result ≡ tl_write_order_of numbers.now mode fit cutouts.now saved.now out.old }
    ensures output { out.new ≡ tl_write_order_output_of numbers.now mode fit cutouts.now saved.now out.old }
{
    if cutouts.len() % 4 != 0 || saved.len() % 4 != 0 {
        return BAD_CALL;
    }
    bytes_number(write_numbers(numbers, mode, fit, cutouts, saved, out))
}

// ---- film sheets

// A refused order has a sheet too, so nothing is refused here.
#[tactic(auto, unfolding(crate::specs::Interface::tl_film_of), using(crate::proofs::InterfaceLaws::film_small))]
#[unsafe(no_mangle)]
pub extern "C" fn tl_film(order: &[u8], sheet: &mut [u8; 1024]) -> i32
    ensures answer { result ≡ tl_film_of order.now }
    ensures output { sheet.new ≡ (film_sheet_of order.now).bytes }
{
    let film = film_sheet(order);
    // By a variable, as the borrow checker has it of a field that is an array.
    let bytes = film.bytes;
    *sheet = bytes;
    film.len as i32
}

// ---- the safe area

// The numbers are the size, the inset size and the edges.
#[tactic(auto, unfolding(crate::specs::Interface::tl_safe_content_of, crate::specs::Interface::tl_safe_content_output_of, crate::specs::Interface::content_from))]
#[unsafe(no_mangle)]
pub extern "C" fn tl_safe_content(numbers: &[i32; 8], area: &mut [f32; 4]) -> i32
    ensures answer { result ≡ tl_safe_content_of numbers.now }
    ensures output { area.new ≡ tl_safe_content_output_of numbers.now area.old }
{
    match safe_content(two(numbers, 0), two(numbers, 2), four(numbers, 4)) {
        Ok(r) => {
            *area = [r.x, r.y, r.w, r.h];
            0
        }
        Err(refusal) => minus(refusal),
    }
}

// The numbers are the edges of decoration, navigation and camera.
#[tactic(auto, unfolding(crate::specs::Interface::tl_safe_edges_of, crate::specs::Interface::tl_safe_edges_output_of, crate::specs::Interface::edges_from))]
#[unsafe(no_mangle)]
pub extern "C" fn tl_safe_edges(
    numbers: &[i32; 12],
    local_side_camera: u8,
    edges: &mut [i32; 4],
) -> i32
    ensures answer { result ≡ tl_safe_edges_of numbers.now local_side_camera }
    ensures output { edges.new ≡ tl_safe_edges_output_of numbers.now local_side_camera edges.old }
{
    let local = local_side_camera != 0;
    match safe_edges(four(numbers, 0), four(numbers, 4), four(numbers, 8), local) {
        Ok(e) => {
            *edges = [e.left, e.top, e.right, e.bottom];
            0
        }
        Err(refusal) => minus(refusal),
    }
}

// Two and four numbers, each as its definition lists them: over a const parameter there would be a closure and a lemma in place of one line.
#[tactic(auto, unfolding(crate::specs::Interface::two_of))]
fn two(numbers: &[i32], i: usize) -> [i32; 2]
    requires { i + 2 ≤ length numbers.now }
    ensures { result ≡ two_of numbers.now i }
{
    [numbers[i], numbers[i + 1]]
}

#[tactic(auto, unfolding(crate::specs::Interface::four_of))]
fn four(numbers: &[i32], i: usize) -> [i32; 4]
    requires { i + 4 ≤ length numbers.now }
    ensures { result ≡ four_of numbers.now i }
{
    [numbers[i], numbers[i + 1], numbers[i + 2], numbers[i + 3]]
}
