// A place for each label, and the controls of a layout put there: the loops over `layout.controls` of input.rs.
#![tactic(auto)]

ghost use Rattle.std.specs.Prelude.{◌≡◌, ◌≤◌, map};
ghost use Rattle.prelude.specs.Lists.{map_first};
ghost use Rattle.geometry.specs.declared.Rect.{Rect};
ghost use Rattle.layout.specs.declared.Control.{Control};
ghost use Rattle.layout.specs.Layout.{with_bounds, with_controls};
ghost use Rattle.places.specs.Places.{cap_of, place_faces_of, well_faces_of, at_of, control_at_of, controls_at_of, controller_of, standard_controller_of, analog_controller_of, placed_of};

use float::SQRT_2;
use geometry::{EMPTY, Rect};
use layout::{Control, EMPTY_LAYOUT, Label, Layout};

// The labels of all controls, in the order of the controls; the first ten are those of a layout without sticks.
const LABELS: [Label; 12] = [
    Label::Tri,
    Label::O,
    Label::X,
    Label::Sq,
    Label::L1,
    Label::L2,
    Label::R2,
    Label::R1,
    Label::Select,
    Label::Start,
    Label::L3,
    Label::R3,
];

// The four face caps.
#[derive(Clone, Copy)]
pub struct Faces {
    pub tri: Rect,
    pub o: Rect,
    pub x: Rect,
    pub sq: Rect,
}

// The size of the four caps in a square well.
pub fn cap(well: f32) -> f32
    ensures { result ≡ cap_of well }
{
    (well - 4.0 * SQRT_2) / (1.0 + SQRT_2)
}

// The four face caps about a centre.
#[tactic(auto, unfolding(crate::specs::Places::place_faces_of))]
pub fn place_faces(fx: f32, fy: f32, across: f32, down: f32, cap: f32) -> Faces
    ensures { result ≡ place_faces_of fx fy across down cap }
{
    let half = cap / 2.0;
    Faces {
        tri: Rect::new(fx - half, fy - down - half, cap, cap),
        o: Rect::new(fx + across - half, fy - half, cap, cap),
        x: Rect::new(fx - half, fy + down - half, cap, cap),
        sq: Rect::new(fx - across - half, fy - half, cap, cap),
    }
}

// The four face caps about the centre of a square well.
#[tactic(auto, unfolding(crate::specs::Places::well_faces_of))]
pub fn well_faces(fx: f32, fy: f32, well: f32) -> Faces
    ensures { result ≡ well_faces_of fx fy well }
{
    let cap = cap(well);
    let step = (well - cap) / 2.0;
    place_faces(fx, fy, step, step, cap)
}

// A place for each label.
#[derive(Clone, Copy)]
pub struct Places {
    pub faces: Faces,
    pub l1: Rect,
    pub l2: Rect,
    pub r2: Rect,
    pub r1: Rect,
    pub select: Rect,
    pub start: Rect,
    pub l3: Rect,
    pub r3: Rect,
}

impl Places {
    #[tactic(auto, unfolding(crate::specs::Places::at_of))]
    fn at(self, label: Label) -> Rect
        ensures { result ≡ at_of self label }
    {
        match label {
            Label::Tri => self.faces.tri,
            Label::O => self.faces.o,
            Label::X => self.faces.x,
            Label::Sq => self.faces.sq,
            Label::L1 => self.l1,
            Label::L2 => self.l2,
            Label::R2 => self.r2,
            Label::R1 => self.r1,
            Label::Select => self.select,
            Label::Start => self.start,
            Label::L3 => self.l3,
            Label::R3 => self.r3,
        }
    }

    // The controls of all labels.
    fn controls(self) -> [Control; 12]
        ensures { result ≡ controls_at_of self }
    {
        LABELS.map(|label| Control::new(self.at(label), label))
    }
}

// A layout without toolbar and game: the controls of the first `count` labels at their places, a d-pad, sticks; the counts beside their arrays, as in `Layout`.
#[tactic(auto, unfolding(crate::specs::Places::controller_of))]
pub fn controller(
    places: Places,
    dpad: Rect,
    count: usize,
    sticks: [Rect; 2],
    stickcount: usize,
) -> Layout
    ensures { (result ≡ controller_of places dpad count sticks stickcount) × (result.count ≡ count) × (result.stickcount ≡ stickcount) }
{
    Layout {
        dpad,
        controls: places.controls(),
        count,
        sticks,
        stickcount,
        ..EMPTY_LAYOUT
    }
}

// One without sticks, and with the ten controls of that.
pub fn standard_controller(places: Places, dpad: Rect) -> Layout
    ensures { (result ≡ standard_controller_of places dpad) × (result.count ≡ 10) × (result.stickcount ≡ 0) }
{
    controller(places, dpad, 10, [EMPTY; 2], 0)
}

// One with two sticks, and all controls.
pub fn analog_controller(places: Places, dpad: Rect, left: Rect, right: Rect) -> Layout
    ensures { (result ≡ analog_controller_of places dpad left right) × (result.count ≡ 12) × (result.stickcount ≡ 2) }
{
    controller(places, dpad, 12, [left, right], 2)
}

// Puts each control where `place` has it.
pub fn move_all<F: Fn(Control) -> Rect>(controls: &mut [Control], place: F)
    requires { F.IsAlwaysCallable place }
    ensures { (g : Control → Rect) → ((c : Control) (r : Rect) → F.post place c r → r ≡ g c) → controls.new ≡ map (λ c. with_bounds c (g c)) controls.old }
{
    for c in controls.iter_mut() {
        c.bounds = place(*c);
    }
}

// The layout with each control at the place of its label.
#[tactic(auto, unfolding(crate::specs::Places::placed_of))]
pub fn placed(l: Layout, places: Places) -> Layout
    requires { l.count ≤ 12 }
    ensures { (result ≡ placed_of l places) × (result.count ≡ l.count) × (result.stickcount ≡ l.stickcount) }
{
    let mut controls = l.controls;
    move_all(&mut controls[..l.count], |c| places.at(c.label));
    Layout { controls, ..l }
}
