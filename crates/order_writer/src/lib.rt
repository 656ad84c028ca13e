// The writer of orders: settings as bytes into output that the caller lends.
#![tactic(auto)]

ghost use Rattle.std.specs.Prelude.{◌≡◌, refl, [], map, ◌≤◌, ◌+◌, length};
ghost use Rattle.std.specs.List.{list_all};
ghost use Rattle.prelude.specs.Lists.{stored};
ghost use Rattle.refusal.specs.Refusal.{answered};
ghost use Rattle.settings.specs.Settings.{least, rect_in_limits_of, tested_of};
ghost use Rattle.wire.specs.Wire.{number_bytes, rect_bytes, room_for, with_front};
ghost use Rattle.order_writer.specs.OrderBytes.{screen_bytes, place_bytes, writable_of, all_fields};
ghost use Rattle.order_writer.specs.OrderBytes.{written_order_of, written_order_output, write_order_of, order_output_of};
ghost use Rattle.order_writer.specs.Numbers.{rect_from, rects_in, settings_from};

use fields::{Field, Item, Listed, One, Row};
use geometry::{Offset, Rect};
use layout::NO_CUTOUTS;
use refusal::Refusal;
use settings::{Preset, Settings};
use wire::put_f32;

// ---- what stands in tags 1 and 5

#[derive(Clone, Copy)]
struct Screen {
    w: f32,
    h: f32,
}

impl Item for Screen {
    ghost bytes = { λ s. screen_bytes s.w s.h };

    ghost SIZE = { 8 };

    const SIZE: usize = 8;

    fn put(self, out: &mut [u8], at: usize) {
        put_f32(out, at, self.w);
        put_f32(out, at + 4, self.h);
    }

    ghost sized = { unfold number_bytes in λ s. refl };
}

#[derive(Clone, Copy)]
struct Place {
    scale: f32,
    offset: Offset,
}

impl Item for Place {
    ghost bytes = { λ p. place_bytes p.scale p.offset };

    ghost SIZE = { 12 };

    const SIZE: usize = 12;

    fn put(self, out: &mut [u8], at: usize) {
        put_f32(out, at, self.scale);
        put_f32(out, at + 4, self.offset.x);
        put_f32(out, at + 8, self.offset.y);
    }

    ghost sized = { unfold number_bytes in λ p. refl };
}

// ---- rectangles

// Lent, four numbers each; what is no whole one at the end is passed over.
#[derive(Clone, Copy)]
struct Numbers<'a>(&'a [f32]);

impl<'a> Row for Numbers<'a> {
    type Item = Rect;

    ghost list = { λ n. rects_in n.0.now };

    #[tactic(auto, using(crate::proofs::NumbersLaws::length_rects, crate::proofs::NumbersLaws::four_more, crate::proofs::NumbersLaws::rects_at))]
    fn count(self) -> usize {
        self.0.len() / 4
    }

    #[tactic(auto, using(crate::proofs::NumbersLaws::length_rects, crate::proofs::NumbersLaws::four_more, crate::proofs::NumbersLaws::rects_at))]
    fn get(self, i: usize) -> Rect {
        rect_from(self.0, 4 * i)
    }

    // A number is read when it is put: so the compiler makes one store of its four bytes.
    #[tactic(auto, using(crate::proofs::NumbersLaws::length_rects, crate::proofs::NumbersLaws::four_more, crate::proofs::NumbersLaws::rects_at))]
    fn put_at(self, i: usize, out: &mut [u8], at: usize) {
        put_rect_from(self.0, 4 * i, out, at);
    }
}

fn rect_from(numbers: &[f32], i: usize) -> Rect
    requires { i + 4 ≤ length numbers.now }
    ensures { result ≡ rect_from numbers.now i }
{
    Rect::new(numbers[i], numbers[i + 1], numbers[i + 2], numbers[i + 3])
}

fn put_rect_from(numbers: &[f32], i: usize, out: &mut [u8], at: usize)
    requires { (i + 4 ≤ length numbers.now) × (at + 16 ≤ length out.old) }
    ensures { out.new ≡ stored out.old at (rect_bytes (rect_from numbers.now i)) }
{
    put_f32(out, at, numbers[i]);
    put_f32(out, at + 4, numbers[i + 1]);
    put_f32(out, at + 8, numbers[i + 2]);
    put_f32(out, at + 12, numbers[i + 3]);
}

// Saved ones as they are written, but for negative zeros, which `put_f32` sees to.
#[derive(Clone, Copy)]
struct Saved<R>(R);

impl<R: Row<Item = Rect>> Row for Saved<R> {
    type Item = Rect;

    ghost list = { λ w. map writable_of (R.list w.0) };

    fn count(self) -> usize {
        self.0.count()
    }

    fn get(self, i: usize) -> Rect {
        writable(self.0.get(i))
    }

    fn put_at(self, i: usize, out: &mut [u8], at: usize) {
        if settings::usable(self.0.get(i)) {
            self.0.put_at(i, out, at);
        } else {
            self.get(i).put(out, at);
        }
    }
}

fn writable(r: Rect) -> Rect
    ensures { result ≡ writable_of r }
{
    if settings::usable(r) {
        return r;
    }
    let n = float::from_bits(0x7fc0_0000);
    Rect::new(n, n, n, n)
}

// By index: a row is known by `get` only.
fn rects_in_limits<R: Row<Item = Rect>>(rects: R) -> bool
    ensures { result ≡ list_all (rect_in_limits_of least) (R.list rects) }
{
    for i in 0..rects.count() {
        if !settings::rect_in_limits(-8192.0, rects.get(i)) {
            return false;
        }
    }
    true
}

// ---- an order

// Settings that were tested, but with these lists.
#[tactic(auto, unfolding(wire::specs::Wire::number_bytes, wire::specs::Wire::rect_bytes), using(crate::proofs::Made::short_list))]
fn put_order<C: Row<Item = Rect>, S: Row<Item = Rect>>(
    s: Settings,
    cutouts: C,
    saved: S,
    out: &mut [u8],
) -> Result<usize, Refusal>
    requires { (length (C.list cutouts) ≤ 16) × (length (S.list saved) ≤ 32) }
    ensures answer { answered result ≡ room_for (length (all_fields s (C.list cutouts) (map writable_of (S.list saved)))) out.old }
    ensures output { out.new ≡ with_front (all_fields s (C.list cutouts) (map writable_of (S.list saved))) out.old }
{
    let preset = s.preset;
    let mode = preset.mode_byte();
    let fit = settings::fit_byte(preset.fit);
    let screen = Field {
        tag: 1,
        value: One(Screen { w: s.w, h: s.h }),
        absent: false,
    };
    let picture = Field {
        tag: 2,
        value: One(s.picture),
        absent: s.picture == settings::screen_picture(s.w, s.h),
    };
    let mode = Field {
        tag: 3,
        value: One(mode),
        absent: mode == 0,
    };
    let fit = Field {
        tag: 4,
        value: One(fit),
        absent: fit == 1,
    };
    let place = Field {
        tag: 5,
        value: One(Place {
            scale: preset.scale,
            offset: preset.offset,
        }),
        absent: preset.untouched(),
    };
    let holes = Field {
        tag: 6,
        value: Listed(cutouts),
        absent: cutouts.count() == 0,
    };
    let elements = Field {
        tag: 7,
        value: Listed(Saved(saved)),
        absent: saved.count() == 0,
    };
    let length = screen.length()
        + picture.length()
        + mode.length()
        + fit.length()
        + place.length()
        + holes.length()
        + elements.length();
    if out.len() < length {
        return Err(Refusal::SheetTooSmall);
    }
    let mut at = screen.put(out, 0);
    at = picture.put(out, at);
    at = mode.put(out, at);
    at = fit.put(out, at);
    at = place.put(out, at);
    at = holes.put(out, at);
    elements.put(out, at);
    Ok(length)
}

pub fn write_order(s: Settings, out: &mut [u8]) -> Result<usize, Refusal>
    ensures answer { answered result ≡ write_order_of s out.old }
    ensures output { out.new ≡ order_output_of s out.old }
{
    settings::tested(0, 0, s)?;
    put_order(s, s.cutouts.as_slice(), s.preset.saved_list(), out)
}

// ---- an order from numbers: the lists are read where they are lent

// Without lists.
fn settings_from(numbers: &[f32; 9], mode: u8, fit: u8) -> Settings
    ensures { result ≡ settings_from numbers.now mode fit [] [] }
{
    let mut preset = Preset::default().with_mode_byte(mode);
    preset.fit = settings::fit_mark(fit);
    preset.scale = numbers[6];
    preset.offset = Offset {
        x: numbers[7],
        y: numbers[8],
    };
    Settings {
        w: numbers[0],
        h: numbers[1],
        picture: rect_from(numbers, 2),
        preset,
        cutouts: NO_CUTOUTS,
    }
}

// As `write_order`. The numbers are the screen's w and h, the picture, scale and offset; mode and fit are the bytes of tags 3 and 4;
// cutouts and saved are four numbers a rectangle, and what is no whole one at their end is passed over.
pub fn write_numbers(
    numbers: &[f32; 9],
    mode: u8,
    fit: u8,
    cutouts: &[f32],
    saved: &[f32],
    out: &mut [u8],
) -> Result<usize, Refusal>
    ensures answer { answered result ≡ written_order_of (tested_of mode fit (settings_from numbers.now mode fit cutouts.now saved.now)) out.old }
    ensures output { out.new ≡ written_order_output (tested_of mode fit (settings_from numbers.now mode fit cutouts.now saved.now)) out.old }
{
    let s = settings_from(numbers, mode, fit);
    settings::tested(mode, fit, s)?;
    let holes = Numbers(cutouts);
    let elements = Numbers(saved);
    if 16 < holes.count() {
        return Err(Refusal::Overfull);
    }
    if !rects_in_limits(holes) {
        return Err(Refusal::OffTheScale);
    }
    if 32 < elements.count() {
        return Err(Refusal::Overfull);
    }
    put_order(s, holes, elements, out)
}
