// `avoid_cutouts` of input.rs: a camera hole is a local obstruction, not an unusable strip, and elements that lie on one move off it.
#![tactic(auto)]

ghost use Rattle.std.specs.Prelude.{◌≡◌, ◌≤◌, length};
ghost use Rattle.layout.specs.Actions.{action_elements_of};
ghost use Rattle.layout.specs.Layout.{element_count_of, Few};
ghost use Rattle.cutouts.specs.Cutouts.{has_area_of, with_area_of, members_of, others_of, hits_of, shift_of, settle_of, avoid_of, avoid_cutouts_of, BelowAll};

use arrayvec::ArrayVec;
use geometry::Rect;
use layout::{Elements, Layout};
use moves::Move;

#[tactic(auto, unfolding(crate::specs::Cutouts::has_area_of))]
fn has_area(r: Rect) -> bool
    ensures { result ≡ has_area_of r }
{
    r.w > 0.0 && r.h > 0.0
}

fn with_area(cutouts: &[Rect]) -> ArrayVec<Rect, 16>
    requires { length cutouts.now ≤ 16 }
    ensures { result.items ≡ with_area_of cutouts.now }
{
    let mut out = ArrayVec::new();
    for c in cutouts {
        if has_area(*c) {
            out.push(*c);
        }
    }
    out
}

// A group's indices lie below the number of elements: a fact about two slices, and so no type's own.
fn members(elements: &[Rect], group: &[usize]) -> ArrayVec<Rect, 4>
    requires { (length group.now ≤ 4) × BelowAll (length elements.now) group.now }
    ensures { result.items ≡ members_of elements.now group.now }
{
    let mut out = ArrayVec::new();
    for i in group {
        out.push(elements[*i]);
    }
    out
}

fn others(elements: &[Rect], group: &[usize]) -> ArrayVec<Rect, 19>
    requires { length elements.now ≤ 19 }
    ensures { result.items ≡ others_of elements.now group.now }
{
    let mut out = ArrayVec::new();
    for (i, r) in elements.iter().enumerate() {
        if !group.contains(&i) {
            out.push(*r);
        }
    }
    out
}

// Some rectangle overlaps a cutout.
pub fn hits(original: &[Rect], holes: &[Rect]) -> bool
    ensures { result ≡ hits_of original.now holes.now }
{
    original.iter().any(|r| r.overlaps_any(holes))
}

// The group moved from where it was.
fn shift(elements: &mut [Rect], group: &[usize], original: &[Rect], to: Move)
    requires { BelowAll (length elements.old) group.now × (original.now ≡ members_of elements.old group.now) }
    ensures { elements.new ≡ shift_of elements.old group.now to }
{
    if let Move::Go(dx, dy) = to {
        for (i, r) in group.iter().zip(original) {
            elements[*i] = r.shifted(dx, dy);
        }
    }
}

// One group off the cutouts.
#[tactic(auto, unfolding(crate::specs::Cutouts::settle_of))]
fn settle(w: f32, h: f32, holes: &[Rect], elements: &mut [Rect], group: &[usize])
    requires { (length elements.old ≤ 19) × (length group.now ≤ 4) × (length holes.now ≤ 16) × BelowAll (length elements.old) group.now }
    ensures { elements.new ≡ settle_of w h holes.now elements.old group.now }
{
    let original = members(elements, group);
    if hits(&original, holes) {
        let rest = others(elements, group);
        let to = moves::search(w, h, holes, &rest, &original);
        shift(elements, group, &original, to);
    }
}

// The faces as one group, then every other element: later groups see the earlier ones moved. Most elements lie on no cutout
// and are left before their group is made.
fn avoid(w: f32, h: f32, holes: &[Rect], faces: &[usize], elements: &mut [Rect])
    requires { (length elements.old ≤ 19) × (length faces.now ≤ 4) × (length holes.now ≤ 16) × BelowAll (length elements.old) faces.now }
    ensures { elements.new ≡ avoid_of w h holes.now faces.now elements.old }
{
    settle(w, h, holes, elements, faces);
    // By index, since a turn may change the elements.
    for i in 0..elements.len() {
        if !faces.contains(&i) && elements[i].overlaps_any(holes) {
            settle(w, h, holes, elements, &[i]);
        }
    }
}

fn faces(l: Layout) -> ArrayVec<usize, 4>
    requires { (l.count ≤ 12) × (length (action_elements_of l) ≤ 4) }
    ensures { (result.items ≡ action_elements_of l) × BelowAll (element_count_of l) result.items }
{
    let mut out = ArrayVec::new();
    for (i, c) in l.control_list().iter().enumerate() {
        if c.label.is_face() {
            out.push(i + 1);
        }
    }
    out
}

#[tactic(auto, unfolding(crate::specs::Cutouts::avoid_cutouts_of))]
pub fn avoid_cutouts(l: Layout, w: f32, h: f32, cutouts: &[Rect]) -> Layout
    requires { Few l × ((length cutouts.now ≤ 16) × (length (action_elements_of l) ≤ 4)) }
    ensures { result ≡ avoid_cutouts_of l w h cutouts.now }
{
    // Most screens have none: nothing is filled for them.
    if cutouts.is_empty() {
        return l;
    }
    let holes = with_area(cutouts);
    if holes.is_empty() {
        return l;
    }
    let Elements { mut at, count } = l.elements();
    avoid(w, h, &holes, &faces(l), &mut at[..count]);
    l.set_elements(&at[..count])
}
