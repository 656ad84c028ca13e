// The layout record of input.rs: a game, a d-pad, controls, the toolbar's four keys, sticks.
#![tactic(auto)]

ghost use Rattle.std.specs.Prelude.{◌≡◌, [], ◌∷◌, ◌++◌, ◌+◌, ◌≤◌, ◌<◌, length, drop};
ghost use Rattle.layout.specs.Label.{mask_of, is_face_of, on_psp_of, name_of};
ghost use Rattle.layout.specs.Actions.{join_of, action_bounds_of};
ghost use Rattle.layout.specs.Psp.{psp_inputs_of, with_inputs_of};
ghost use mathlib.Core.List.{map, zip_with};
ghost use Rattle.prelude.specs.Lists.{replace_first};
ghost use Rattle.layout.specs.Layout.{element_count_of, element_of, set_element_of, elements_of, control_list, stick_list, element_list, cutout_list, control, with_bounds, Few};
ghost use Rattle.layout.specs.Elements.{controller_elements_of, set_elements_of};

use geometry::{EMPTY, Rect};

#[derive(Clone, Copy, Debug, PartialEq, Eq)]
pub enum Label {
    Tri,
    O,
    X,
    Sq,
    L1,
    L2,
    R2,
    R1,
    Select,
    Start,
    L3,
    R3,
}

#[derive(Clone, Copy, Debug, PartialEq)]
pub struct Control {
    pub bounds: Rect,
    pub label: Label,
}

// The first `count` controls and the first `stickcount` sticks are in use. That these are no more than the arrays have, `Few`, is said where it is needed, and is no
// invariant of the type: each definition that makes a layout (`with_controller` and those on it) would have to carry a proof of it.
#[derive(Clone, Copy, Debug, PartialEq)]
pub struct Layout {
    pub game: Rect,
    pub dpad: Rect,
    pub controls: [Control; 12],
    pub count: usize,
    pub pause: Rect,
    pub playback: Rect,
    pub speed: Rect,
    pub mute: Rect,
    pub sticks: [Rect; 2],
    pub stickcount: usize,
}

// Elements of a layout, all of them or some: the first `count` of the array. No `ArrayVec`, since that is not `Copy`.
#[derive(Clone, Copy, Debug, PartialEq)]
pub struct Elements {
    pub at: [Rect; 19],
    pub count: usize,
}

// The camera holes that an order sets: the first `count` of the array. No invariant bounds the count, since `write_order` answers 7 for settings
// with more; so functions over a slice of them ask for at most 16 where an array or the number of moves does.
#[derive(Clone, Copy, Debug, PartialEq)]
pub struct Cutouts {
    pub at: [Rect; 16],
    pub count: usize,
}

pub const NO_ELEMENTS: Elements = Elements {
    at: [EMPTY; 19],
    count: 0,
};

pub const NO_CUTOUTS: Cutouts = Cutouts {
    at: [EMPTY; 16],
    count: 0,
};

const NO_CONTROL: Control = Control {
    bounds: EMPTY,
    label: Label::Tri,
};

// All rectangles are empty; no controls and no sticks.
pub const EMPTY_LAYOUT: Layout = Layout {
    game: EMPTY,
    dpad: EMPTY,
    controls: [NO_CONTROL; 12],
    count: 0,
    pause: EMPTY,
    playback: EMPTY,
    speed: EMPTY,
    mute: EMPTY,
    sticks: [EMPTY; 2],
    stickcount: 0,
};

impl Control {
    pub fn new(bounds: Rect, label: Label) -> Self
        ensures { result ≡ control bounds label }
    {
        Self { bounds, label }
    }

    // The control at another place.
    pub fn with_bounds(self, bounds: Rect) -> Self
        ensures { result ≡ with_bounds self bounds }
    {
        Self {
            bounds,
            label: self.label,
        }
    }
}

impl Label {
    // The label's bit in a button mask.
    pub fn mask(self) -> u16
        ensures { result ≡ mask_of self }
    {
        match self {
            Label::Tri => 1 << 9,
            Label::O => 1 << 8,
            Label::X => 1 << 0,
            Label::Sq => 1 << 1,
            Label::L1 => 1 << 10,
            Label::L2 => 1 << 12,
            Label::R2 => 1 << 13,
            Label::R1 => 1 << 11,
            Label::Select => 1 << 2,
            Label::Start => 1 << 3,
            Label::L3 => 1 << 14,
            Label::R3 => 1 << 15,
        }
    }

    #[tactic(auto, unfolding(crate::specs::Label::is_face_of))]
    pub fn is_face(self) -> bool
        ensures { result ≡ is_face_of self }
    {
        matches!(self, Label::Tri | Label::O | Label::X | Label::Sq)
    }

    // Whether a psp has the control: its mask has no high bit.
    fn on_psp(self) -> bool
        ensures { result ≡ on_psp_of self }
    {
        self.mask() & 0xf000 == 0
    }

    // The film sheet's name.
    #[tactic(auto, unfolding(crate::specs::Label::name_of))]
    pub fn name(self) -> &'static str
        ensures { result.now ≡ name_of self }
    {
        match self {
            Label::Tri => "TRI",
            Label::O => "O",
            Label::X => "X",
            Label::Sq => "SQ",
            Label::L1 => "L1",
            Label::L2 => "L2",
            Label::R2 => "R2",
            Label::R1 => "R1",
            Label::Select => "SELECT",
            Label::Start => "START",
            Label::L3 => "L3",
            Label::R3 => "R3",
        }
    }
}

impl Elements {
    // One more, behind those in use. The places of the array past it are left open.
    pub fn push(&mut self, r: Rect)
        requires { self.now.count < 19 }
        ensures items { element_list self.new ≡ element_list self.old ++ r ∷ [] }
        ensures count { self.new.count ≡ self.old.count + 1 }
    {
        self.at[self.count] = r;
        self.count += 1;
    }

    // Those in use.
    pub fn as_slice(&self) -> &[Rect]
        requires { self.now.count ≤ 19 }
        ensures { result.now ≡ element_list self.now }
    {
        &self.at[0..self.count]
    }
}

impl Cutouts {
    // Those in use.
    pub fn as_slice(&self) -> &[Rect]
        requires { self.now.count ≤ 16 }
        ensures { result.now ≡ cutout_list self.now }
    {
        &self.at[..self.count]
    }
}

impl Layout {
    // The controls in use.
    pub fn control_list(&self) -> &[Control]
        requires { self.now.count ≤ 12 }
        ensures { result.now ≡ control_list self.now }
    {
        &self.controls[..self.count]
    }

    // The sticks in use.
    pub fn stick_list(&self) -> &[Rect]
        requires { self.now.stickcount ≤ 2 }
        ensures { result.now ≡ stick_list self.now }
    {
        &self.sticks[..self.stickcount]
    }

    pub fn element_count(self) -> usize
        requires { Few self }
        ensures { result ≡ element_count_of self }
    {
        self.count + 5 + self.stickcount
    }

    // The elements by index: the d-pad, the controls, the four keys of the toolbar, the sticks.
    pub fn element(self, index: usize) -> Rect
        requires { Few self × (index < element_count_of self) }
        ensures { result ≡ element_of self index }
    {
        let n = self.count;
        if index == 0 {
            return self.dpad;
        }
        if index <= n {
            let c = self.controls[index - 1];
            return c.bounds;
        }
        if index == n + 1 {
            return self.pause;
        }
        if index == n + 2 {
            return self.playback;
        }
        if index == n + 3 {
            return self.speed;
        }
        if index == n + 4 {
            return self.mute;
        }
        self.sticks[index - n - 5]
    }

    pub fn set_element(self, index: usize, rect: Rect) -> Layout
        requires { Few self × (index < element_count_of self) }
        ensures { result ≡ set_element_of self index rect }
    {
        let n = self.count;
        let mut l = self;
        if index == 0 {
            l.dpad = rect;
            return l;
        }
        if index <= n {
            let c = l.controls[index - 1];
            l.controls[index - 1] = c.with_bounds(rect);
            return l;
        }
        if index == n + 1 {
            l.pause = rect;
            return l;
        }
        if index == n + 2 {
            l.playback = rect;
            return l;
        }
        if index == n + 3 {
            l.speed = rect;
            return l;
        }
        if index == n + 4 {
            l.mute = rect;
            return l;
        }
        l.sticks[index - n - 5] = rect;
        l
    }

    // All elements, in the order of their indices. The places of the array past the count are left open.
    #[tactic(auto, unfolding(crate::specs::Layout::elements_of))]
    pub fn elements(self) -> Elements
        requires { Few self }
        ensures items { element_list result ≡ elements_of self }
        ensures count { result.count ≡ element_count_of self }
    {
        let mut out = NO_ELEMENTS;
        out.push(self.dpad);
        for c in self.control_list() {
            out.push(c.bounds);
        }
        out.push(self.pause);
        out.push(self.playback);
        out.push(self.speed);
        out.push(self.mute);
        for r in self.stick_list() {
            out.push(*r);
        }
        out
    }

    // The elements but for the toolbar's. The places of the array past the count are left open.
    #[tactic(auto, using(crate::proofs::ElementLaws::controller_elements_lem, crate::proofs::ArrayLaws::array_lengths))]
    pub fn controller_elements(self) -> Elements
        requires { Few self }
        ensures items { element_list result ≡ map (element_of self) (controller_elements_of self) }
        ensures count { result.count ≡ self.count + 1 + self.stickcount }
    {
        let mut out = NO_ELEMENTS;
        out.push(self.dpad);
        for c in self.control_list() {
            out.push(c.bounds);
        }
        for r in self.stick_list() {
            out.push(*r);
        }
        out
    }

    // `set_element` at each index in turn.
    #[tactic(auto, unfolding(crate::specs::Elements::set_elements_of))]
    pub fn set_elements(self, rects: &[Rect]) -> Layout
        requires { Few self × (length rects.now ≡ element_count_of self) }
        ensures { result ≡ set_elements_of self rects.now }
    {
        let n = self.count;
        let mut sticks = self.sticks;
        sticks[..self.stickcount].copy_from_slice(&rects[n + 5..]);
        let mut l = self;
        l.dpad = rects[0];
        l.controls = set_bounds(self.controls, n, rects);
        l.pause = rects[n + 1];
        l.playback = rects[n + 2];
        l.speed = rects[n + 3];
        l.mute = rects[n + 4];
        l.sticks = sticks;
        l
    }

    // The box around the face controls, empty if there is none.
    pub fn action_bounds(self) -> Rect
        requires { self.count ≤ 12 }
        ensures { result ≡ action_bounds_of self }
    {
        let mut bounds: Option<Rect> = None;
        for c in self.control_list() {
            if c.label.is_face() {
                bounds = Some(match bounds {
                    Some(b) => join(b, c.bounds),
                    None => c.bounds,
                });
            }
        }
        bounds.unwrap_or(EMPTY)
    }

    // Keeps the controls that a psp has, in their order, and at most one stick.
    pub fn psp_inputs(self) -> Layout
        requires { self.count ≤ 12 }
        ensures { result ≡ psp_inputs_of self }
    {
        // By hand, since the places of the array past those kept stay as they were.
        let mut controls = self.controls;
        let mut count = 0;
        for c in self.control_list() {
            if c.label.on_psp() {
                controls[count] = *c;
                count += 1;
            }
        }
        let mut l = self;
        l.controls = controls;
        l.count = count;
        l.stickcount = self.stickcount.min(1);
        l
    }
}

// The box around two rectangles.
fn join(a: Rect, b: Rect) -> Rect
    ensures { result ≡ join_of a b }
{
    let x = float::min(a.x, b.x);
    let y = float::min(a.y, b.y);
    Rect::new(
        x,
        y,
        float::max(a.x + a.w, b.x + b.w) - x,
        float::max(a.y + a.h, b.y + b.h) - y,
    )
}

// The first n controls with the rectangles that follow the d-pad's. By index: a proof sees nothing of what an adapter of `iter_mut` writes.
fn set_bounds(controls: [Control; 12], n: usize, rects: &[Rect]) -> [Control; 12]
    requires { (n ≤ 12) × (n + 1 ≤ length rects.now) }
    ensures { result ≡ replace_first n (zip_with with_bounds controls (drop 1 rects.now)) controls }
{
    let mut out = controls;
    for (i, r) in rects[1..n + 1].iter().enumerate() {
        out[i] = controls[i].with_bounds(*r);
    }
    out
}

// A psp has some of the inputs only.
pub fn with_inputs(l: Layout, psp: bool) -> Layout
    requires { Few l }
    ensures { (result ≡ with_inputs_of l psp) × (result.count ≤ 12) × (result.stickcount ≤ 2) }
{
    if psp {
        return l.psp_inputs();
    }
    l
}
