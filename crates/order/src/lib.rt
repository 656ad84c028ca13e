// The functions that hosts call with an order: its layout in bytes, the mask of a touch, fingers on its layout, and `PlayerViewport::layout`.
#![tactic(auto)]

ghost use Rattle.std.specs.Prelude.{◌≡◌};
ghost use Rattle.refusal.specs.Refusal.{answered};
ghost use Rattle.tracker.specs.Tracker.{Press, MoveTo, Lift, masks_of, kept_or};
ghost use Rattle.order.specs.Orders.{layout_of, layout_output_of, touch_of, order_call_of, viewport_of, viewport_output_of};
ghost use Rattle.order.specs.Demands.{WidestWritten};

use layout::EMPTY_LAYOUT;
use preset::{settings_layout, settings_viewport};
use reader::read_order;
use refusal::Refusal;
use settings::tops_in_limits;
use touch::mask_near;
use tracker::{Tracked, Tracker, lifted, moved, pressed};
use writer::write_layout;

// How many bytes were written. Demand 3 of the mission is the third clause.
#[tactic(auto, unfolding(crate::specs::Orders::order_layout, crate::specs::Orders::layout_of, crate::specs::Orders::layout_output_of), using(reader::proofs::Accepted::accepted_order, preset::proofs::PresetLabels::settings_few))]
pub fn layout(order: &[u8], out: &mut [u8]) -> Result<usize, Refusal>
    ensures answer { answered result ≡ layout_of order.now out.old }
    ensures output { out.new ≡ layout_output_of order.now out.old }
    ensures widest { WidestWritten order.now (answered result) out.new }
{
    let settings = read_order(order)?;
    write_layout(settings_layout(settings), out)
}

// The button mask.
#[tactic(auto, unfolding(crate::specs::Orders::order_layout, crate::specs::Orders::touch_of), using(reader::proofs::Accepted::accepted_order, preset::proofs::PresetLabels::settings_few))]
pub fn touch(order: &[u8], x: f32, y: f32, previous: u16) -> Result<u16, Refusal>
    ensures { answered result ≡ touch_of order.now x y previous }
{
    Ok(mask_near(settings_layout(read_order(order)?), x, y, previous))
}

// Three calls of three lines each: one function for them would take a closure with clauses of its own.
#[tactic(auto, unfolding(crate::specs::Orders::order_layout, crate::specs::Orders::order_call_of), using(reader::proofs::Accepted::accepted_order, preset::proofs::PresetLabels::settings_few))]
pub fn order_pressed(t: Tracker, order: &[u8], finger: u8, x: f32, y: f32) -> Tracked
    ensures answer { answered result.answer ≡ masks_of finger (order_call_of t order.now (Press finger x y)) }
    ensures tracker { result.next ≡ kept_or t (order_call_of t order.now (Press finger x y)) }
{
    match read_order(order) {
        Ok(settings) => pressed(t, settings_layout(settings), finger, x, y),
        Err(refusal) => t.kept(refusal),
    }
}

#[tactic(auto, unfolding(crate::specs::Orders::order_layout, crate::specs::Orders::order_call_of), using(reader::proofs::Accepted::accepted_order, preset::proofs::PresetLabels::settings_few))]
pub fn order_moved(t: Tracker, order: &[u8], finger: u8, x: f32, y: f32) -> Tracked
    ensures answer { answered result.answer ≡ masks_of finger (order_call_of t order.now (MoveTo finger x y)) }
    ensures tracker { result.next ≡ kept_or t (order_call_of t order.now (MoveTo finger x y)) }
{
    match read_order(order) {
        Ok(settings) => moved(t, settings_layout(settings), finger, x, y),
        Err(refusal) => t.kept(refusal),
    }
}

// A lift does not look at the layout, so none is made.
#[tactic(auto, unfolding(crate::specs::Orders::order_layout, crate::specs::Orders::order_call_of), using(tracker::proofs::TrackerLaws::lift_over_any))]
pub fn order_lifted(t: Tracker, order: &[u8], finger: u8) -> Tracked
    ensures answer { answered result.answer ≡ masks_of finger (order_call_of t order.now (Lift finger)) }
    ensures tracker { result.next ≡ kept_or t (order_call_of t order.now (Lift finger)) }
{
    match read_order(order) {
        Ok(_) => lifted(t, EMPTY_LAYOUT, finger),
        Err(refusal) => t.kept(refusal),
    }
}

// The tops are looked at after the whole order.
#[tactic(auto, unfolding(prelude::specs::Answer::must, crate::specs::Orders::order_viewport, crate::specs::Orders::viewport_of, crate::specs::Orders::viewport_output_of), using(reader::proofs::Accepted::accepted_order, settings::proofs::Accepted::tops_least, preset::proofs::PresetLabels::viewport_few))]
pub fn viewport_layout(
    order: &[u8],
    reusable_top: f32,
    covered_top: f32,
    out: &mut [u8],
) -> Result<usize, Refusal>
    ensures answer { answered result ≡ viewport_of order.now reusable_top covered_top out.old }
    ensures output { out.new ≡ viewport_output_of order.now reusable_top covered_top out.old }
{
    let settings = read_order(order)?;
    if !tops_in_limits(reusable_top, covered_top) {
        return Err(Refusal::OffTheScale);
    }
    write_layout(settings_viewport(settings, reusable_top, covered_top), out)
}
