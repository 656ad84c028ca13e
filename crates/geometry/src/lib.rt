// Rectangles in layout units, as input.rs has them.
#![tactic(auto)]

ghost use Rattle.std.specs.Prelude.{◌≡◌};
ghost use Rattle.std.specs.List.{list_any};
ghost use Rattle.geometry.specs.Rect.{new_of, shifted_of, contains_of, inside_of, fit_of, overlaps_of, near_of, same_bounds_of};

#[derive(Clone, Copy, Debug, Default, PartialEq)]
pub struct Rect {
    pub x: f32,
    pub y: f32,
    pub w: f32,
    pub h: f32,
}

// `Rect::default`.
pub const EMPTY: Rect = Rect {
    x: 0.0,
    y: 0.0,
    w: 0.0,
    h: 0.0,
};

// Where the game lies in the room that a smaller size factor leaves, from 0 to 1 across and down.
#[derive(Clone, Copy, Debug, PartialEq)]
pub struct Offset {
    pub x: f32,
    pub y: f32,
}

// `[0.5; 2]`.
pub const CENTRED: Offset = Offset { x: 0.5, y: 0.5 };

impl Rect {
    pub fn new(x: f32, y: f32, w: f32, h: f32) -> Self
        ensures { result ≡ new_of x y w h }
    {
        Self { x, y, w, h }
    }

    // Moved by dx and dy.
    pub fn shifted(self, dx: f32, dy: f32) -> Self
        ensures { result ≡ shifted_of self dx dy }
    {
        Self {
            x: self.x + dx,
            y: self.y + dy,
            w: self.w,
            h: self.h,
        }
    }

    // Half-open: the left and upper edges belong to the rectangle, the right and lower ones do not.
    pub fn contains(self, x: f32, y: f32) -> bool
        ensures { result ≡ contains_of self x y }
    {
        x >= self.x && (y >= self.y && (x < self.x + self.w && y < self.y + self.h))
    }

    // On a screen w by h.
    pub fn inside(self, w: f32, h: f32) -> bool
        ensures { result ≡ inside_of self w h }
    {
        self.x >= 0.0 && (self.y >= 0.0 && (self.x + self.w <= w && self.y + self.h <= h))
    }

    // The largest rectangle of the aspect in the middle of this one.
    pub fn fit(self, aspect: f32) -> Self
        ensures { result ≡ fit_of self aspect }
    {
        let w = float::min(self.w, self.h * aspect);
        let h = w / aspect;
        Self::new(
            self.x + (self.w - w) / 2.0,
            self.y + (self.h - h) / 2.0,
            w,
            h,
        )
    }

    // Neighbours may share 0.01 on either axis.
    pub fn overlaps(self, other: Rect) -> bool
        ensures { result ≡ overlaps_of self other }
    {
        self.x < other.x + other.w - 0.01
            && (self.x + self.w > other.x + 0.01
                && (self.y < other.y + other.h - 0.01 && self.y + self.h > other.y + 0.01))
    }

    pub fn overlaps_any(self, others: &[Rect]) -> bool
        ensures { result ≡ list_any (overlaps_of self) others.now }
    {
        others.iter().any(|r| self.overlaps(*r))
    }

    pub fn same_bounds(self, other: Rect) -> bool
        ensures { result ≡ same_bounds_of self other }
    {
        near(self.x, other.x)
            && (near(self.y, other.y) && (near(self.w, other.w) && near(self.h, other.h)))
    }
}

fn near(a: f32, b: f32) -> bool
    ensures { result ≡ near_of a b }
{
    float::abs(a - b) < 0.01
}
