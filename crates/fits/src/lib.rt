// `fits` of input/picture.rs: whether a controller's elements lie clear of a picture, of the camera holes and of each other.
#![tactic(auto)]

ghost use Rattle.std.specs.Prelude.{◌≡◌};
ghost use Rattle.std.specs.List.{list_all};
ghost use Rattle.layout.specs.Layout.{Few};
ghost use Rattle.fits.specs.Fits.{inputs_of, separate_of, lies_clear_of, fits_of};

use arrayvec::ArrayVec;
use geometry::Rect;
use hypot::hypot;
use layout::Layout;

// A controller element, and whether it is a face cap.
#[derive(Clone, Copy, Default)]
struct Input {
    bounds: Rect,
    face: bool,
}

// The d-pad, the controls, the sticks; at most 1, 12 and 2.
#[tactic(auto, unfolding(crate::specs::Fits::inputs_of))]
fn inputs(l: Layout) -> ArrayVec<Input, 15>
    requires { Few l }
    ensures { result.items ≡ inputs_of l }
{
    let mut out = ArrayVec::new();
    out.push(Input {
        bounds: l.dpad,
        face: false,
    });
    for c in l.control_list() {
        out.push(Input {
            bounds: c.bounds,
            face: c.label.is_face(),
        });
    }
    for r in l.stick_list() {
        out.push(Input {
            bounds: *r,
            face: false,
        });
    }
    out
}

// Face caps are circles, which stay apart where the corners of their boxes meet.
#[tactic(auto, unfolding(crate::specs::Fits::separate_of))]
fn separate(i: Input, j: Input) -> bool
    ensures { result ≡ separate_of i j }
{
    let a = i.bounds;
    let b = j.bounds;
    !a.overlaps(b)
        || (i.face
            && (j.face
                && hypot(
                    a.x + a.w / 2.0 - b.x - b.w / 2.0,
                    a.y + a.h / 2.0 - b.y - b.h / 2.0,
                ) >= (a.w + b.w) / 2.0 + 3.99))
}

#[tactic(auto, unfolding(crate::specs::Fits::lies_clear_of))]
fn lies_clear(r: Rect, w: f32, h: f32, game: Rect, holes: &[Rect]) -> bool
    ensures { result ≡ lies_clear_of w h game holes.now r }
{
    r.inside(w + 0.01, h + 0.01) && (!r.overlaps(game) && !r.overlaps_any(holes))
}

// An input is separate from each of the later ones.
fn separate_after(a: Input, later: &[Input]) -> bool
    ensures { result ≡ list_all (separate_of a) later.now }
{
    later.iter().all(|b| separate(a, *b))
}

// Whether the controller's elements lie on the screen, clear of the picture, of the holes and of each other.
pub fn fits(l: Layout, w: f32, h: f32, game: Rect, holes: &[Rect]) -> bool
    requires { Few l }
    ensures { result ≡ fits_of l w h game holes.now }
{
    let list = inputs(l);
    let inputs = list.as_slice();
    for (i, a) in inputs.iter().enumerate() {
        if !lies_clear(a.bounds, w, h, game, holes) {
            return false;
        }
        if !separate_after(*a, &inputs[i + 1..]) {
            return false;
        }
    }
    true
}
