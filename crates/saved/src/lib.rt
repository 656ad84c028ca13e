// Saved rectangles as parts of the screen: put back by `Preset::layout_in`, taken by `Preset::capture` of input.rs.
#![tactic(auto)]

ghost use Rattle.std.specs.Prelude.{◌≡◌, map, ◌≤◌, T, length};
ghost use Rattle.std.specs.Float.Ieee.Scale.{finite};
ghost use Rattle.prelude.specs.Lists.{replace_first};
ghost use Rattle.layout.specs.Layout.{Few};
ghost use Rattle.settings.specs.Settings.{usable_of};
ghost use Rattle.saved.specs.Saved.{on_screen_of, restore_of, restored_of, with_saved_of, part_of, capture_of};

use float::{clamp, min};
use geometry::Rect;
use layout::{Elements, Layout};
use settings::{Preset, usable};

// 24 points wide and high at least, where the screen is, and all of it on the screen.
#[tactic(auto, unfolding(crate::specs::Saved::on_screen_of))]
fn on_screen(w: f32, h: f32, r: Rect) -> Rect
    requires { T (usable_of r) × T (finite w) × T (finite h) }
    ensures { result ≡ on_screen_of w h r }
{
    let width = clamp(r.w * w, min(24.0, w), w);
    let height = clamp(r.h * h, min(24.0, h), h);
    Rect::new(
        clamp(r.x * w, 0.0, w - width),
        clamp(r.y * h, 0.0, h - height),
        width,
        height,
    )
}

// What was saved for an element, else the element.
#[tactic(auto, unfolding(crate::specs::Saved::restore_of))]
fn restore(w: f32, h: f32, saved: Rect, element: Rect) -> Rect
    requires { T (finite w) × T (finite h) }
    ensures { result ≡ restore_of w h saved element }
{
    if usable(saved) {
        on_screen(w, h, saved)
    } else {
        element
    }
}

// Each element that something was saved for.
fn restore_all(w: f32, h: f32, saved: &[Rect], elements: &mut [Rect])
    requires { T (finite w) × T (finite h) }
    ensures { elements.new ≡ restored_of w h saved.now elements.old }
{
    for (i, element) in elements.iter_mut().enumerate() {
        if let Some(r) = saved.get(i) {
            *element = restore(w, h, *r, *element);
        }
    }
}

#[tactic(auto, unfolding(crate::specs::Saved::with_saved_of))]
pub fn with_saved(l: Layout, w: f32, h: f32, saved: &[Rect]) -> Layout
    requires { Few l × T (finite w) × T (finite h) }
    ensures { result ≡ with_saved_of l w h saved.now }
{
    if saved.is_empty() {
        return l;
    }
    let Elements { mut at, count } = l.elements();
    restore_all(w, h, saved, &mut at[..count]);
    l.set_elements(&at[..count])
}

#[tactic(auto, unfolding(crate::specs::Saved::part_of))]
fn part(w: f32, h: f32, r: Rect) -> Rect
    ensures { result ≡ part_of w h r }
{
    Rect::new(r.x / w, r.y / h, r.w / w, r.h / h)
}

// Each element as a part of the screen, at the front.
fn capture_all(w: f32, h: f32, elements: &[Rect], saved: &mut [Rect])
    requires { length elements.now ≤ length saved.old }
    ensures { saved.new ≡ replace_first (length elements.now) (map (part_of w h) elements.now) saved.old }
{
    for (i, r) in elements.iter().enumerate() {
        saved[i] = part(w, h, *r);
    }
}

#[tactic(auto, unfolding(crate::specs::Saved::capture_of))]
pub fn capture(p: Preset, l: Layout, w: f32, h: f32) -> Preset
    requires { Few l }
    ensures { result ≡ capture_of p l w h }
{
    let elements = l.elements();
    let mut saved = p.elements;
    capture_all(w, h, elements.as_slice(), &mut saved);
    Preset {
        elements: saved,
        count: elements.count,
        ..p
    }
}
