// The static library for hosts in other languages: each function of `thumb_layout` under its own name, as host/include/thumb_layout.h
// declares it, with the same clauses.
#![tactic(auto)]

ghost use Rattle.std.specs.Prelude.{◌≡◌};
ghost use Rattle.order.specs.Demands.{WidestWritten};
ghost use Rattle.order.specs.Orders.{layout_of, layout_output_of, viewport_output_of};
ghost use Rattle.tracker.specs.Tracker.{Press, MoveTo, Lift};
ghost use Rattle.film_sheet.specs.Film.{film_sheet_of};
ghost use Rattle.thumb_layout.specs.Interface.{tl_layout_of, tl_touch_of, tl_viewport_layout_of, tl_film_of, tl_safe_content_of, tl_safe_content_output_of, tl_safe_edges_of, tl_safe_edges_output_of};
ghost use Rattle.thumb_layout.specs.Interface.{tl_masks_of, tl_tracker_of, tl_write_order_of, tl_write_order_output_of};

use thumb_layout::Masks;
use tracker::Tracker;

#[unsafe(no_mangle)]
pub extern "C" fn tl_layout(order: &[u8], out: &mut [u8]) -> i32
    ensures answer { result ≡ tl_layout_of order.now out.old }
    ensures output { out.new ≡ layout_output_of order.now out.old }
    ensures widest { WidestWritten order.now (layout_of order.now out.old) out.new }
{
    thumb_layout::tl_layout(order, out)
}

#[unsafe(no_mangle)]
pub extern "C" fn tl_touch(order: &[u8], x: f32, y: f32, previous: u16) -> i32
    ensures { result ≡ tl_touch_of order.now x y previous }
{
    thumb_layout::tl_touch(order, x, y, previous)
}

#[unsafe(no_mangle)]
pub extern "C" fn tl_viewport_layout(
    order: &[u8],
    reusable_top: f32,
    covered_top: f32,
    out: &mut [u8],
) -> i32
    ensures answer { result ≡ tl_viewport_layout_of order.now reusable_top covered_top out.old }
    ensures output { out.new ≡ viewport_output_of order.now reusable_top covered_top out.old }
{
    thumb_layout::tl_viewport_layout(order, reusable_top, covered_top, out)
}

#[unsafe(no_mangle)]
pub extern "C" fn tl_press(t: &mut Tracker, order: &[u8], finger: u8, x: f32, y: f32) -> Masks
    ensures masks { result ≡ tl_masks_of t.old order.now finger (Press finger x y) }
    ensures tracker { t.new ≡ tl_tracker_of t.old order.now (Press finger x y) }
{
    thumb_layout::tl_press(t, order, finger, x, y)
}

#[unsafe(no_mangle)]
pub extern "C" fn tl_move(t: &mut Tracker, order: &[u8], finger: u8, x: f32, y: f32) -> Masks
    ensures masks { result ≡ tl_masks_of t.old order.now finger (MoveTo finger x y) }
    ensures tracker { t.new ≡ tl_tracker_of t.old order.now (MoveTo finger x y) }
{
    thumb_layout::tl_move(t, order, finger, x, y)
}

#[unsafe(no_mangle)]
pub extern "C" fn tl_lift(t: &mut Tracker, order: &[u8], finger: u8) -> Masks
    ensures masks { result ≡ tl_masks_of t.old order.now finger (Lift finger) }
    ensures tracker { t.new ≡ tl_tracker_of t.old order.now (Lift finger) }
{
    thumb_layout::tl_lift(t, order, finger)
}

#[unsafe(no_mangle)]
pub extern "C" fn tl_write_order(
    numbers: &[f32; 9],
    mode: u8,
    fit: u8,
    cutouts: &[f32],
    saved: &[f32],
    out: &mut [u8],
) -> i32
    ensures answer { result ≡ tl_write_order_of numbers.now mode fit cutouts.now saved.now out.old }
    ensures output { out.new ≡ tl_write_order_output_of numbers.now mode fit cutouts.now saved.now out.old }
{
    thumb_layout::tl_write_order(numbers, mode, fit, cutouts, saved, out)
}

#[unsafe(no_mangle)]
pub extern "C" fn tl_film(order: &[u8], sheet: &mut [u8; 1024]) -> i32
    ensures answer { result ≡ tl_film_of order.now }
    ensures output { sheet.new ≡ (film_sheet_of order.now).bytes }
{
    thumb_layout::tl_film(order, sheet)
}

#[unsafe(no_mangle)]
pub extern "C" fn tl_safe_content(numbers: &[i32; 8], area: &mut [f32; 4]) -> i32
    ensures answer { result ≡ tl_safe_content_of numbers.now }
    ensures output { area.new ≡ tl_safe_content_output_of numbers.now area.old }
{
    thumb_layout::tl_safe_content(numbers, area)
}

#[unsafe(no_mangle)]
pub extern "C" fn tl_safe_edges(
    numbers: &[i32; 12],
    local_side_camera: u8,
    edges: &mut [i32; 4],
) -> i32
    ensures answer { result ≡ tl_safe_edges_of numbers.now local_side_camera }
    ensures output { edges.new ≡ tl_safe_edges_output_of numbers.now local_side_camera edges.old }
{
    thumb_layout::tl_safe_edges(numbers, local_side_camera, edges)
}
