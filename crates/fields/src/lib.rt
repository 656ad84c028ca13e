// The fields of orders and of layouts: a head, and a value behind it, put into output that the caller lends.
#![tactic(auto)]

ghost use Rattle.std.specs.Prelude.{◌≡◌, List, ℕ, ◌∷◌, [], ◌+◌, ◌≤◌, ◌<◌, length, get_or, refl, false};
ghost use mathlib.Core.List.{flat_map};
ghost use Rattle.prelude.specs.Lists.{stored};
ghost use Rattle.wire.specs.Wire.{short_bytes, number_bytes, rect_bytes};
ghost use Rattle.fields.specs.Fields.{field_unless};

use geometry::Rect;
use wire::{put_field_head, put_rect, put_short};

// What is always as many bytes. Each `put` takes output of any length and the place in it, as its contract says it: `stored out.old at ..`.
pub trait Item: Copy {
    ghost bytes: { Self → List ℕ };

    ghost SIZE: { ℕ };

    const SIZE: usize;

    fn put(self, out: &mut [u8], at: usize)
        requires { at + SIZE ≤ length out.old }
        ensures { out.new ≡ stored out.old at (bytes self) };

    ghost sized: { (x : Self) → length (bytes x) ≡ SIZE };
}

// A list of items, by their index.
pub trait Row: Copy {
    type Item: Item;

    ghost list: { Self → List Self.Item };

    fn count(self) -> usize
        ensures { result ≡ length (list self) };

    fn get(self, i: usize) -> Self::Item
        requires { i < length (list self) }
        ensures { result ≡ get_or (list self) i result };

    fn put_at(self, i: usize, out: &mut [u8], at: usize)
        requires { (i < length (list self)) × (at + Self.Item.SIZE ≤ length out.old) }
        ensures { (x : Self.Item) → out.new ≡ stored out.old at (Self.Item.bytes (get_or (list self) i x)) }
    {
        self.get(i).put(out, at);
    }
}
// What stands behind a field's head.
pub trait Value: Copy {
    ghost bytes: { Self → List ℕ };

    fn length(self) -> usize
        requires { length (bytes self) < 65536 }
        ensures { result ≡ length (bytes self) };

    fn put(self, out: &mut [u8], at: usize)
        requires { at + length (bytes self) ≤ length out.old }
        ensures { out.new ≡ stored out.old at (bytes self) };
}

impl Item for Rect {
    ghost bytes = { rect_bytes };

    ghost SIZE = { 16 };

    const SIZE: usize = 16;

    fn put(self, out: &mut [u8], at: usize) {
        put_rect(out, at, self);
    }

    ghost sized = { unfold rect_bytes number_bytes in λ r. refl };
}

// A mark.
impl Item for u8 {
    ghost bytes = { λ b. b ∷ [] };

    ghost SIZE = { 1 };

    const SIZE: usize = 1;

    #[tactic(auto, unfolding(prelude::specs::Lists::stored))]
    fn put(self, out: &mut [u8], at: usize) {
        out[at] = self;
    }

    ghost sized = { λ b. refl };
}

impl Item for u16 {
    ghost bytes = { short_bytes };

    ghost SIZE = { 2 };

    const SIZE: usize = 2;

    fn put(self, out: &mut [u8], at: usize) {
        put_short(out, at, self as usize);
    }

    ghost sized = { unfold short_bytes in λ n. refl };
}

impl<'a, T: Item> Row for &'a [T] {
    type Item = T;

    ghost list = { λ s. s.now };

    fn count(self) -> usize {
        self.len()
    }

    fn get(self, i: usize) -> T {
        self[i]
    }
}

// The value that is one item.
#[derive(Clone, Copy)]
pub struct One<T>(pub T);

impl<T: Item> Value for One<T> {
    ghost bytes = { λ o. T.bytes o.0 };

    fn length(self) -> usize {
        T::SIZE
    }

    fn put(self, out: &mut [u8], at: usize) {
        self.0.put(out, at);
    }
}

// The value that lists items, one after the other.
#[derive(Clone, Copy)]
pub struct Listed<R>(pub R);

impl<R: Row> Value for Listed<R> {
    ghost bytes = { λ l. flat_map R.Item.bytes (R.list l.0) };

    fn length(self) -> usize {
        R::Item::SIZE * self.0.count()
    }

    // By index: a row is known by `get` only, as lent numbers are no slice of rectangles.
    fn put(self, out: &mut [u8], at: usize) {
        let mut next = at;
        for i in 0..self.0.count() {
            self.0.put_at(i, out, next);
            next += R::Item::SIZE;
        }
    }
}

// The value stands beside `absent` also where it is left out, as its definition `field_unless` takes both.
#[derive(Clone, Copy)]
pub struct Field<V> {
    pub tag: u8,
    pub value: V,
    pub absent: bool,
}

impl<V: Value> Field<V> {
    pub fn new(tag: u8, value: V) -> Self
        ensures { result ≡ record { tag = tag; value = value; absent = false } }
    {
        Field {
            tag,
            value,
            absent: false,
        }
    }

    pub fn length(self) -> usize
        requires { length (V.bytes self.value) < 65536 }
        ensures { (result ≡ length (field_unless self.absent self.tag (V.bytes self.value))) × (result < 65539) }
    {
        if self.absent {
            return 0;
        }
        3 + self.value.length()
    }

    // Gives where the next one goes.
    pub fn put(self, out: &mut [u8], at: usize) -> usize
        requires { (length (V.bytes self.value) < 65536) × (at + length (field_unless self.absent self.tag (V.bytes self.value)) ≤ length out.old) }
        ensures next { result ≡ at + length (field_unless self.absent self.tag (V.bytes self.value)) }
        ensures output { out.new ≡ stored out.old at (field_unless self.absent self.tag (V.bytes self.value)) }
    {
        if self.absent {
            return at;
        }
        let n = self.value.length();
        put_field_head(out, at, self.tag, n);
        self.value.put(out, at + 3);
        at + 3 + n
    }
}
