// The search for a move that takes a group of elements off the cutouts, as in `Layout::avoid_cutouts` of input.rs.
#![tactic(auto)]

ghost use Rattle.std.specs.Prelude.{◌≡◌, ◌+◌, ◌*◌, ◌<◌, ◌≤◌, [], length, map, take};
ghost use Rattle.std.specs.List.{fold, flat_map, insert, position_or_len};
ghost use Rattle.moves.specs.Moves.{length_of, away_of, rank_of, shorter_of, insert_of, moves_off, clear_of, all_clear_of, first_clear_of, search_of};

use geometry::Rect;
use std::marker::Model;

// What becomes of a group. No Option of two numbers: a form that docs/DECISIONS.md names.
#[derive(Clone, Copy)]
pub enum Move {
    Stay,
    Go(f32, f32),
}

// The moves to be tried, in this order: the first `count` of arrays of 256, as document 01 has them.
#[derive(Drop)]
struct Candidates {
    dxs: [f32; 256],
    dys: [f32; 256],
    lens: [f32; 256],
    count: usize,
}

impl Model for Candidates {
    ghost use Rattle.std.specs.Prelude.{Float, List, ◌≡◌, ◌≤◌, map, take};
    ghost use Rattle.moves.specs.Moves.{length_of, moves_in};

    ghost Value = { List (Float × Float) };

    ghost view = { λ m. moves_in m.dxs m.dys m.count };

    ghost invariant = { λ m. (m.count ≤ 256) × (take m.count m.lens ≡ map length_of (moves_in m.dxs m.dys m.count)) };
}

// What a group must keep clear of: the screen's edges, the cutouts and the other elements.
#[derive(Clone, Copy)]
struct Surroundings<'a> {
    w: f32,
    h: f32,
    holes: &'a [Rect],
    others: &'a [Rect],
}

// A number's place in the order of `total_cmp`; std's asks that no number is a NaN, which a length may be.
#[tactic(auto, unfolding(crate::specs::Moves::rank_of))]
fn rank(x: f32) -> u32
    ensures { result ≡ rank_of x }
{
    let b = float::to_bits(x);
    if b < 0x8000_0000 {
        b + 0x8000_0000
    } else {
        0xffff_ffff - b
    }
}

#[tactic(auto, unfolding(crate::specs::Moves::shorter_of))]
fn shorter(a: f32, b: f32) -> bool
    ensures { result ≡ shorter_of a b }
{
    rank(a) < rank(b)
}

// v at a place among the first n, and what stood from there on one place further.
#[tactic(auto, using(crate::proofs::Inserts::opened))]
fn insert_at(a: &mut [f32; 256], n: usize, at: usize, v: f32)
    requires { (at ≤ n) × (n < 256) }
    ensures { take (n + 1) a.new ≡ insert (take n a.old) at v }
{
    a.copy_within(at..n, at + 1);
    a[at] = v;
}

impl Candidates {
    fn new() -> Self
        ensures { result ≡ [] }
    {
        Self {
            dxs: [0.0; 256],
            dys: [0.0; 256],
            lens: [0.0; 256],
            count: 0,
        }
    }

    // Where a length belongs: in front of the first longer one.
    fn slot(&self, len: f32) -> usize
        ensures { (result ≡ position_or_len (shorter_of len) (map length_of self.now)) × (result ≤ length self.now) }
    {
        self.lens[..self.count]
            .iter()
            .position(|other| shorter(len, *other))
            .unwrap_or(self.count)
    }

    // A move, in front of the first longer one.
    fn insert(&mut self, dx: f32, dy: f32)
        requires { length self.old < 256 }
        ensures { self.new ≡ insert_of self.old (dx, dy) }
    {
        let len = dx * dx + dy * dy;
        let at = self.slot(len);
        insert_at(&mut self.dxs, self.count, at, dx);
        insert_at(&mut self.dys, self.count, at, dy);
        insert_at(&mut self.lens, self.count, at, len);
        self.count += 1;
    }

    // The moves of r off the hole c: to its left, to its right, above it and below it.
    #[tactic(auto, using(crate::proofs::Inserts::length_insert_of))]
    fn insert_away(&mut self, r: Rect, c: Rect)
        requires { length self.old + 4 ≤ 256 }
        ensures { (self.new ≡ fold insert_of self.old (away_of r c)) × (length self.new ≡ length self.old + 4) }
    {
        self.insert(c.x - r.w - 8.0 - r.x, 0.0);
        self.insert(c.x + c.w + 8.0 - r.x, 0.0);
        self.insert(0.0, c.y - r.h - 8.0 - r.y);
        self.insert(0.0, c.y + c.h + 8.0 - r.y);
    }

    // The moves of r off each hole that it overlaps.
    fn insert_off(&mut self, r: Rect, holes: &[Rect])
        requires { length self.old + 4 * length holes.now ≤ 256 }
        ensures { (self.new ≡ fold insert_of self.old (flat_map (moves_off r) holes.now)) × (length self.new ≤ length self.old + 4 * length holes.now) }
    {
        for c in holes {
            if r.overlaps(*c) {
                self.insert_away(r, *c);
            }
        }
    }

    // The first move that leaves the group clear.
    fn first_clear(&self, s: Surroundings<'_>, original: &[Rect]) -> Move
        ensures { result ≡ first_clear_of s.entry.w s.entry.h s.entry.holes.now s.entry.others.now original.now self.now }
    {
        let found = self.dxs[..self.count]
            .iter()
            .zip(&self.dys[..self.count])
            .find(|(dx, dy)| s.all_clear(original, **dx, **dy));
        match found {
            Some((dx, dy)) => Move::Go(*dx, *dy),
            None => Move::Stay,
        }
    }
}

impl Surroundings<'_> {
    // On the screen, off the cutouts and off the other elements.
    #[tactic(auto, unfolding(crate::specs::Moves::clear_of))]
    fn clear(self, r: Rect) -> bool
        ensures { result ≡ clear_of self.entry.w self.entry.h self.entry.holes.now self.entry.others.now r }
    {
        r.inside(self.w, self.h) && (!r.overlaps_any(self.holes) && !r.overlaps_any(self.others))
    }

    // A move leaves each rectangle of the group clear.
    fn all_clear(self, original: &[Rect], dx: f32, dy: f32) -> bool
        ensures { result ≡ all_clear_of self.entry.w self.entry.h self.entry.holes.now self.entry.others.now original.now (dx, dy) }
    {
        original.iter().all(|r| self.clear(r.shifted(dx, dy)))
    }
}

// What becomes of a group.
pub fn search(w: f32, h: f32, holes: &[Rect], others: &[Rect], original: &[Rect]) -> Move
    requires { (length original.now ≤ 4) × (length holes.now ≤ 16) }
    ensures { result ≡ search_of w h holes.now others.now original.now }
{
    // At most 4 rectangles, 16 holes and 4 moves for each pair: 256.
    let mut moves = Candidates::new();
    for r in original {
        moves.insert_off(*r, holes);
    }
    let surroundings = Surroundings {
        w,
        h,
        holes,
        others,
    };
    moves.first_clear(surroundings, original)
}
