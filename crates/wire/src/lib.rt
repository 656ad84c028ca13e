// Numbers, rectangles and the heads of fields as document 01's bytes: read from a value, and put into output that the caller lends.
#![tactic(auto)]

ghost use Rattle.std.specs.Prelude.{◌≡◌, ◌+◌, ◌*◌, ◌≤◌, ◌<◌, length};
ghost use Rattle.prelude.specs.Lists.{stored};
ghost use Rattle.wire.specs.Wire.{short_of, word_of, number_at_of, rect_at_of, short_bytes, written_bits_of, number_bytes, rect_bytes, head_bytes};

use geometry::Rect;

pub fn short(high: u8, low: u8) -> usize
    ensures { (result ≡ short_of high low) × (result < 65536) }
{
    usize::from(u16::from_be_bytes([high, low]))
}

pub fn word(a: u8, b: u8, c: u8, d: u8) -> u32
    ensures { result ≡ word_of a b c d }
{
    u32::from_be_bytes([a, b, c, d])
}

#[tactic(auto, unfolding(crate::specs::Wire::number_at_of))]
pub fn number_at(value: &[u8], i: usize) -> f32
    requires { 4 * i + 4 ≤ length value.now }
    ensures { result ≡ number_at_of value.now i }
{
    let at = 4 * i;
    float::from_bits(word(value[at], value[at + 1], value[at + 2], value[at + 3]))
}

#[tactic(auto, unfolding(crate::specs::Wire::rect_at_of))]
pub fn rect_at(value: &[u8], i: usize) -> Rect
    requires { 16 * i + 16 ≤ length value.now }
    ensures { result ≡ rect_at_of value.now i }
{
    Rect::new(
        number_at(value, 4 * i),
        number_at(value, 4 * i + 1),
        number_at(value, 4 * i + 2),
        number_at(value, 4 * i + 3),
    )
}

fn put(out: &mut [u8], at: usize, bytes: &[u8])
    requires { at + length bytes.now ≤ length out.old }
    ensures { out.new ≡ stored out.old at bytes.now }
{
    out[at..at + bytes.len()].copy_from_slice(bytes);
}

#[tactic(auto, unfolding(crate::specs::Wire::short_bytes))]
// Each `put` takes output of any length and the place in it, as its contract says it: `stored out.old at ..`.
pub fn put_short(out: &mut [u8], at: usize, n: usize)
    requires { (n < 65536) × (at + 2 ≤ length out.old) }
    ensures { out.new ≡ stored out.old at (short_bytes n) }
{
    put(out, at, &(n as u16).to_be_bytes());
}

// Negative zero has the pattern of plus zero.
#[tactic(auto, unfolding(crate::specs::Wire::written_bits_of))]
fn written_bits(x: f32) -> u32
    ensures { result ≡ written_bits_of x }
{
    let n = float::to_bits(x);
    if n == 0x8000_0000 { 0 } else { n }
}

#[tactic(auto, unfolding(crate::specs::Wire::number_bytes))]
pub fn put_f32(out: &mut [u8], at: usize, x: f32)
    requires { at + 4 ≤ length out.old }
    ensures { out.new ≡ stored out.old at (number_bytes x) }
{
    put(out, at, &written_bits(x).to_be_bytes());
}

#[tactic(auto, unfolding(crate::specs::Wire::rect_bytes))]
pub fn put_rect(out: &mut [u8], at: usize, r: Rect)
    requires { at + 16 ≤ length out.old }
    ensures { out.new ≡ stored out.old at (rect_bytes r) }
{
    put_f32(out, at, r.x);
    put_f32(out, at + 4, r.y);
    put_f32(out, at + 8, r.w);
    put_f32(out, at + 12, r.h);
}

#[tactic(auto, unfolding(crate::specs::Wire::head_bytes, crate::specs::Wire::short_bytes))]
pub fn put_field_head(out: &mut [u8], at: usize, tag: u8, n: usize)
    requires { (n < 65536) × (at + 3 ≤ length out.old) }
    ensures { out.new ≡ stored out.old at (head_bytes tag n) }
{
    let [high, low] = (n as u16).to_be_bytes();
    put(out, at, &[tag, high, low]);
}
