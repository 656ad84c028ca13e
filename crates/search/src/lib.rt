// The largest clear picture of input.rs, and the game placed in it.
#![tactic(auto)]

ghost use Rattle.std.specs.Prelude.{◌≡◌, cond, [], ◌≤◌, length};
ghost use Rattle.layout.specs.Layout.{element_list, elements_of, Few};
ghost use Rattle.search.specs.Search.{aspect_of, within_of, better_of, narrow_of, narrow_side_of, centered_of, side_of, clear_picture_aspect_of, clear_picture_of, obstacles_of, game_of, place_game_in_aspect_of, place_game_in_of, place_game_of};

use arrayvec::ArrayVec;
use float::{clamp, max, min, pick};
use geometry::{EMPTY, Offset, Rect};
use layout::{Elements, Layout, NO_ELEMENTS};
use std::iter::once;

// The picture's shape.
pub fn aspect(psp: bool) -> f32
    ensures { result ≡ aspect_of psp }
{
    pick(psp, 480.0 / 272.0, 4.0 / 3.0)
}

// A picture may start at y.
#[tactic(auto, unfolding(crate::specs::Search::within_of))]
fn within(y: f32, h: f32) -> bool
    ensures { result ≡ within_of y h }
{
    y >= 0.0 && y <= h
}

// The wider picture, at equal width the higher.
#[tactic(auto, unfolding(crate::specs::Search::better_of))]
fn better(best: Rect, x: f32, y: f32, width: f32, aspect: f32) -> Rect
    ensures { result ≡ better_of best x y width aspect }
{
    if width > best.w || (width == best.w && y < best.y) {
        return Rect::new(x, y, width, width / aspect);
    }
    best
}

// What one obstacle leaves of the width of a picture in the middle: it ends beside the obstacle or above it.
#[tactic(auto, unfolding(crate::specs::Search::narrow_of))]
fn narrow(center: f32, aspect: f32, y: f32, width: f32, r: Rect) -> f32
    ensures { result ≡ narrow_of center aspect y width r }
{
    if r.y + r.h <= y + 0.01 {
        return width;
    }
    let beside = max(max(center - r.x - r.w, r.x - center), 0.0) * 2.0;
    let above = max(r.y - y, 0.0) * aspect;
    min(width, max(beside, above))
}

// The same of a picture that starts at x, by another formula, as in the Rust: it ends before the obstacle or above it.
#[tactic(auto, unfolding(crate::specs::Search::narrow_side_of))]
fn narrow_side(aspect: f32, x: f32, y: f32, width: f32, r: Rect) -> f32
    ensures { result ≡ narrow_side_of aspect x y width r }
{
    if r.x + r.w <= x + 0.01 || r.y + r.h <= y + 0.01 {
        return width;
    }
    let limit = max(max(r.x - x, (r.y - y) * aspect), 0.0);
    min(width, limit)
}

// The widest picture in the middle, starting at the top or under an obstacle. One that has become narrower than the best is given up: obstacles only narrow it.
#[tactic(auto, unfolding(crate::specs::Search::centered_of, crate::specs::Search::width_at))]
fn centered(w: f32, h: f32, obstacles: &[Rect], aspect: f32) -> Rect
    ensures { result ≡ centered_of w h obstacles.now aspect }
{
    let center = w / 2.0;
    let mut best = EMPTY;
    for y in once(0.0).chain(obstacles.iter().map(|r| r.y + r.h)) {
        if within(y, h) {
            let mut width = max(min(w, (h - y) * aspect), 0.0);
            for r in obstacles {
                if width < best.w {
                    break;
                }
                width = narrow(center, aspect, y, width, *r);
            }
            best = better(best, (w - width) / 2.0, y, width, aspect);
        }
    }
    best
}

// Controls that the user has moved can fill the whole centre column: a clear region at a side is better than no picture. Nested over x, y and obstacles as in
// the Rust, and so no instance of `centered`.
#[tactic(auto, unfolding(crate::specs::Search::side_of, crate::specs::Search::side_width_at))]
fn side(w: f32, h: f32, obstacles: &[Rect], aspect: f32) -> Rect
    ensures { result ≡ side_of w h obstacles.now aspect }
{
    let mut best = EMPTY;
    for x in once(0.0).chain(obstacles.iter().map(|r| r.x + r.w)) {
        if within(x, w) {
            for y in once(0.0).chain(obstacles.iter().map(|r| r.y + r.h)) {
                if within(y, h) {
                    let mut width = max(min(w - x, (h - y) * aspect), 0.0);
                    for r in obstacles {
                        if width < best.w {
                            break;
                        }
                        width = narrow_side(aspect, x, y, width, *r);
                    }
                    best = better(best, x, y, width, aspect);
                }
            }
        }
    }
    best
}

#[tactic(auto, unfolding(crate::specs::Search::clear_picture_aspect_of))]
pub fn clear_picture_aspect(w: f32, h: f32, obstacles: &[Rect], aspect: f32) -> Rect
    ensures { result ≡ clear_picture_aspect_of w h obstacles.now aspect }
{
    let picture = centered(w, h, obstacles, aspect);
    if picture.w > 0.0 {
        return picture;
    }
    side(w, h, obstacles, aspect)
}

pub fn clear_picture(w: f32, h: f32, obstacles: &[Rect]) -> Rect
    ensures { result ≡ clear_picture_of w h obstacles.now }
{
    clear_picture_aspect(w, h, obstacles, 4.0 / 3.0)
}

// The elements that overlap the area, moved into its frame.
#[tactic(auto, unfolding(crate::specs::Search::obstacles_of))]
fn obstacles(elements: &[Rect], bounds: Rect) -> ArrayVec<Rect, 19>
    requires { length elements.now ≤ 19 }
    ensures { result.items ≡ obstacles_of bounds elements.now }
{
    let mut out = ArrayVec::new();
    for r in elements {
        if r.overlaps(bounds) {
            out.push(Rect::new(r.x - bounds.x, r.y - bounds.y, r.w, r.h));
        }
    }
    out
}

// The game for elements that it may not cover: the largest clear picture, made smaller by the factor and moved in the room that this leaves.
#[tactic(auto, unfolding(crate::specs::Search::game_of))]
fn game(elements: &[Rect], bounds: Rect, scale: f32, offset: Offset, aspect: f32) -> Rect
    requires { length elements.now ≤ 19 }
    ensures { result ≡ game_of elements.now bounds scale offset aspect }
{
    let obstacles = obstacles(elements, bounds);
    let area = if aspect == 4.0 / 3.0 {
        clear_picture(bounds.w, bounds.h, &obstacles)
    } else {
        clear_picture_aspect(bounds.w, bounds.h, &obstacles, aspect)
    };
    let scale = clamp(scale, 0.25, 1.0);
    let across = clamp(offset.x, 0.0, 1.0);
    let down = clamp(offset.y, 0.0, 1.0);
    Rect::new(
        bounds.x + area.x + area.w * (1.0 - scale) * across,
        bounds.y + area.y + area.h * (1.0 - scale) * down,
        area.w * scale,
        area.h * scale,
    )
}

// The elements that the game may not cover: none where it may overlap them.
fn uncovered(l: Layout, overlap: bool) -> Elements
    requires { Few l }
    ensures items { element_list result ≡ cond overlap [] (elements_of l) }
    ensures count { result.count ≤ 19 }
{
    if overlap {
        return NO_ELEMENTS;
    }
    l.elements()
}

// The picture may take the whole area, camera holes included: only what is touched keeps clear of them.
#[tactic(auto, unfolding(crate::specs::Search::place_game_in_aspect_of))]
pub fn place_game_in_aspect(
    l: Layout,
    bounds: Rect,
    overlap: bool,
    scale: f32,
    offset: Offset,
    aspect: f32,
) -> Layout
    requires { Few l }
    ensures { result ≡ place_game_in_aspect_of l bounds overlap scale offset aspect }
{
    let elements = uncovered(l, overlap);
    let game = game(elements.as_slice(), bounds, scale, offset, aspect);
    Layout { game, ..l }
}

pub fn place_game_in(l: Layout, bounds: Rect, overlap: bool, scale: f32, offset: Offset) -> Layout
    requires { Few l }
    ensures { result ≡ place_game_in_of l bounds overlap scale offset }
{
    place_game_in_aspect(l, bounds, overlap, scale, offset, 4.0 / 3.0)
}

pub fn place_game(l: Layout, w: f32, h: f32, overlap: bool, scale: f32, offset: Offset) -> Layout
    requires { Few l }
    ensures { result ≡ place_game_of l w h overlap scale offset }
{
    let bounds = Rect::new(0.0, 0.0, w, h);
    place_game_in(l, bounds, overlap, scale, offset)
}
