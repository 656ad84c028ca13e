// `mask_near` of input.rs: the buttons that a touch holds down.
#![tactic(auto)]

ghost use Rattle.std.specs.Prelude.{◌≡◌, false, cond, not, ◌&&◌, ◌≤◌};
ghost use Rattle.std.specs.Float.Ieee.{lt, eq};
ghost use Rattle.std.specs.List.{list_any};
ghost use Rattle.float.specs.MinMax.{abs_of};
ghost use Rattle.geometry.specs.Rect.{contains_of};
ghost use Rattle.hypot.specs.Hypot.{hypot_of};
ghost use Rattle.layout.specs.Label.{is_face_of};
ghost use Rattle.touch.specs.Touch.{axis_bit_of, sector_of, dpad_mask_of, other_holds_of, is_free_of, add_other_of, target_of, reached_of, distance_of, nearer_of, mask_near_of};

use float::SQRT_2;
use geometry::Rect;
use layout::{Control, Layout};

// The nearest face button so far.
#[derive(Clone, Copy)]
struct Face {
    // Its bit, or 0 where there is none: no Option, since 0 is what is answered then.
    mask: u16,
    closest: f32,
}

// The nearest face button so far if the touch lies in free space, where margins count, and if in space that is taken.
#[derive(Clone, Copy)]
struct NearestFaces {
    free: Face,
    taken: Face,
}

// The bit of one axis of the d-pad, if the touch lies near enough to that axis.
#[tactic(auto, unfolding(crate::specs::Touch::axis_bit_of))]
fn axis_bit(along: f32, across: f32, negative: u16, positive: u16) -> u16
    ensures { result ≡ axis_bit_of along across negative positive }
{
    let diagonal = SQRT_2 - 1.0; // tan(22.5 degrees)
    if float::abs(along) >= float::abs(across) * diagonal {
        if along < 0.0 {
            return negative;
        }
        return positive;
    }
    0
}

// Eight broad sectors about the centre of the d-pad: a diagonal does not need the corner.
#[tactic(auto, unfolding(crate::specs::Touch::sector_of))]
fn sector(dx: f32, dy: f32) -> u16
    ensures { result ≡ sector_of dx dy }
{
    axis_bit(dx, dy, 1 << 6, 1 << 7) | axis_bit(dy, dx, 1 << 4, 1 << 5)
}

// One side is over the radius, and so is `hypot`, which is no shorter, unless the other side is a NaN.
fn beyond(side: f32, other: f32, radius: f32) -> bool
    ensures { result ≡ (lt radius (abs_of side) && eq other other) }
{
    float::abs(side) > radius && other == other
}

// The touch lies off the neutral centre, a disc. Outside the square about it `hypot` need not be taken.
fn off_centre(dx: f32, dy: f32, radius: f32) -> bool
    ensures { result ≡ lt radius (hypot_of dx dy) }
{
    if beyond(dx, dy, radius) {
        return true;
    }
    if beyond(dy, dx, radius) {
        return true;
    }
    hypot::hypot(dx, dy) > radius
}

#[tactic(auto, unfolding(crate::specs::Touch::dpad_mask_of))]
fn dpad_mask(dpad: Rect, x: f32, y: f32) -> u16
    ensures { result ≡ dpad_mask_of dpad x y }
{
    if dpad.contains(x, y) {
        let dx = x - dpad.x - dpad.w / 2.0;
        let dy = y - dpad.y - dpad.h / 2.0;
        if off_centre(dx, dy, dpad.w * 0.09) {
            return sector(dx, dy);
        }
    }
    0
}

// A control that is no face button holds the touch.
#[tactic(auto, unfolding(crate::specs::Touch::other_holds_of))]
fn other_holds(c: Control, x: f32, y: f32) -> bool
    ensures { result ≡ other_holds_of x y c }
{
    !c.label.is_face() && c.bounds.contains(x, y)
}

// Neither the picture nor the d-pad holds the touch.
fn outside(l: &Layout, x: f32, y: f32) -> bool
    ensures { result ≡ (not (contains_of l.now.game x y) && not (contains_of l.now.dpad x y)) }
{
    !l.game.contains(x, y) && !l.dpad.contains(x, y)
}

fn any_holds(rects: &[Rect], x: f32, y: f32) -> bool
    ensures { result ≡ list_any (λ r. contains_of r x y) rects.now }
{
    rects.iter().any(|r| r.contains(x, y))
}

fn any_other(controls: &[Control], x: f32, y: f32) -> bool
    ensures { result ≡ list_any (other_holds_of x y) controls.now }
{
    controls.iter().any(|c| other_holds(*c, x, y))
}

// The touch lies in unused control space: none of the blockers holds it, asked in their order.
#[tactic(auto, using(crate::proofs::Blockers::none_holds))]
fn is_free(l: &Layout, x: f32, y: f32) -> bool
    requires { l.now.count ≤ 12 }
    ensures { result ≡ is_free_of l.now x y }
{
    let blockers = [l.game, l.dpad, l.pause, l.playback, l.speed, l.mute];
    !any_holds(&blockers, x, y) && !any_other(l.control_list(), x, y)
}

// The box of a face button with its margin.
#[tactic(auto, unfolding(crate::specs::Touch::target_of))]
fn target(r: Rect) -> Rect
    ensures { result ≡ target_of r }
{
    let padding = float::min(float::min(r.w, r.h) * 0.15, 10.0);
    Rect::new(
        r.x - padding,
        r.y - padding,
        r.w + 2.0 * padding,
        r.h + 2.0 * padding,
    )
}

#[tactic(auto, unfolding(crate::specs::Touch::reached_of))]
fn reached(r: Rect, x: f32, y: f32, free: bool) -> bool
    ensures { result ≡ reached_of r x y free }
{
    r.contains(x, y) || (free && target(r).contains(x, y))
}

#[tactic(auto, unfolding(crate::specs::Touch::distance_of))]
fn distance(r: Rect, x: f32, y: f32, held: bool) -> f32
    ensures { result ≡ distance_of r x y held }
{
    hypot::hypot(x - r.x - r.w / 2.0, y - r.y - r.h / 2.0) - float::pick(held, 6.0, 0.0)
}

#[tactic(auto, unfolding(crate::specs::Touch::add_other_of))]
fn add_other(mask: u16, c: Control, x: f32, y: f32) -> u16
    ensures { result ≡ add_other_of x y mask c }
{
    if other_holds(c, x, y) {
        return mask | c.label.mask();
    }
    mask
}

fn closer(best: Face, face: Face) -> Face
    ensures { result ≡ cond (lt face.closest best.closest) face best }
{
    if face.closest < best.closest {
        return face;
    }
    best
}

fn face_reached(c: Control, x: f32, y: f32, free: bool) -> bool
    ensures { result ≡ (is_face_of c.label && reached_of c.bounds x y free) }
{
    c.label.is_face() && reached(c.bounds, x, y, free)
}

#[tactic(auto, unfolding(crate::specs::Touch::nearer_of))]
fn nearer(
    best: NearestFaces,
    c: Control,
    x: f32,
    y: f32,
    outside: bool,
    previous: u16,
) -> NearestFaces
    ensures { (result.free ≡ nearer_of x y outside previous best.free c) × (result.taken ≡ nearer_of x y false previous best.taken c) }
{
    if face_reached(c, x, y, outside) {
        let mask = c.label.mask();
        let closest = distance(c.bounds, x, y, previous & mask != 0);
        let face = Face { mask, closest };
        let free = closer(best.free, face);
        // Its box holds the touch, not only its margin.
        if c.bounds.contains(x, y) {
            return NearestFaces {
                free,
                taken: closer(best.taken, face),
            };
        }
        return NearestFaces { free, ..best };
    }
    best
}

// Whether the touch lies in free space is asked only where it matters.
fn face_mask(l: &Layout, faces: NearestFaces, x: f32, y: f32) -> u16
    requires { l.now.count ≤ 12 }
    ensures { result ≡ cond (is_free_of l.now x y) faces.free.mask faces.taken.mask }
{
    if faces.free.mask != faces.taken.mask && is_free(l, x, y) {
        return faces.free.mask;
    }
    faces.taken.mask
}

// The bits of the three sources: the d-pad, the controls that are no face buttons, the nearest face button. One pass over the controls serves free
// space and space that is taken: it is not known which it is until all controls are seen, and margins count outside the picture and the d-pad only.
#[tactic(auto, unfolding(crate::specs::Touch::mask_near_of, crate::specs::Touch::others_mask_of, crate::specs::Touch::nearest))]
pub fn mask_near(l: Layout, x: f32, y: f32, previous: u16) -> u16
    requires { l.count ≤ 12 }
    ensures { result ≡ mask_near_of l x y previous }
{
    let outside = outside(&l, x, y);
    let none = Face {
        mask: 0,
        closest: f32::INFINITY,
    };
    let mut others = 0;
    let mut faces = NearestFaces {
        free: none,
        taken: none,
    };
    for c in l.control_list() {
        others = add_other(others, *c, x, y);
        faces = nearer(faces, *c, x, y, outside, previous);
    }
    dpad_mask(l.dpad, x, y) | others | face_mask(&l, faces, x, y)
}
