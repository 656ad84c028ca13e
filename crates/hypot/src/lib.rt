// `hypot` of two f32: the f32 nearest the exact root of the sum of squares, ties to even.
// The f64 root gives a candidate. It is surely the nearest f32 if the sum of squares, rounded to f64, lies between the rounded
// squares of the midpoints beside it: rounding keeps the order. If not, the root is taken in whole numbers and rounded; there too the f64 root
// gives a candidate, which is tested.
#![tactic(auto)]

ghost use Rattle.std.specs.Prelude.{◌≡◌, not, ◌⊎◌, T};
ghost use Prim.Native.Nat.{ℕ, ◌+◌, ◌*◌, ◌^◌, ◌≤◌, ◌<◌, compare};
ghost use Rattle.std.specs.Float.Ieee.{nearest, is_nan};
ghost use Rattle.hypot.specs.Hypot.{nearest_root, hypot_of};
ghost use Rattle.hypot.specs.Pattern.{unsigned_pattern_of, exponent_of, significand_of, pattern_value, f32_at};
ghost use Rattle.hypot.specs.Parts.{root_of, sum_of_squares_of, midpoint_of, SurelyNearest};

use std::cmp::Ordering;
use std::num::saturating_f64_to_u64;

// The bit pattern of x without its sign. A NaN's lies above the infinity's.
fn unsigned_pattern(x: f32) -> u32
    ensures { result ≡ unsigned_pattern_of x }
{
    float::to_bits(x) % 0x8000_0000
}

fn exponent(p: u32) -> u32
    ensures { result ≡ exponent_of p }
{
    (p / 0x80_0000).saturating_sub(1)
}

fn significand(p: u32) -> u64
    ensures { result ≡ significand_of p }
{
    (p - exponent(p) * 0x80_0000) as u64
}

fn times_power(m: u64, d: u32) -> u64
    requires m_bound { m < 0x100_0000 }
    requires d_bound { d ≤ 12 }
    ensures { result ≡ m * 2 ^ d }
{
    m << d
}

// The whole part of the root of m or one more, by the f64 root. Nothing is relied on.
fn likely_root(m: u128) -> u64
    requires { m < 2 ^ 76 }
{
    let high = (m / 0x40_0000_0000) as u64;
    let low = (m % 0x40_0000_0000) as u64;
    saturating_f64_to_u64((high as f64 * 274877906944.0 + low as f64).sqrt())
}

// Whether x is the whole part of the root of m: the next square lies 2 * x + 1 above that of x.
fn is_whole_root(x: u64, m: u128) -> bool
    ensures square_le { T result → x * x ≤ m }
    ensures next_square_gt { T result → m < (x + 1) * (x + 1) }
{
    let y = x as u128;
    y * y <= m && m - y * y <= 2 * y
}

// The whole part of the root of m. The turns of `isqrt`, 64 at any m, are left to an m for which neither candidate passes.
fn whole_root(m: u128) -> u64
    requires { m < 2 ^ 76 }
    ensures square_le { result * result ≤ m }
    ensures next_square_gt { m < (result + 1) * (result + 1) }
{
    let x = likely_root(m);
    if is_whole_root(x, m) {
        return x;
    }
    if x > 0 && is_whole_root(x - 1, m) {
        return x - 1;
    }
    m.isqrt() as u64
}

// Twice the whole part of the root of m, and one more if the root is not whole: so it compares with every even number as twice the root does.
#[tactic(auto, using(crate::proofs::Isqrt::root_between, crate::proofs::Isqrt::root_whole))]
fn root(m: u128) -> u64
    requires { m < 2 ^ 76 }
    ensures { result ≡ root_of m }
{
    let x = whole_root(m);
    let y = x as u128;
    if y * y < m { 2 * x + 1 } else { 2 * x }
}

// c, or the next number up, by how w compares with h; at a tie the even one.
fn nearest_whole(c: u64, w: u64, h: u64) -> u64
    requires { c < 0x100_0000 }
    ensures { result ≡ nearest c (compare w h) }
{
    match w.cmp(&h) {
        Ordering::Less => c,
        Ordering::Equal => c + c % 2,
        Ordering::Greater => c + 1,
    }
}

// The f32 that is t * 2 ^ k units of 2 ^ -149, or the infinity. A t of 25 digits carries into the exponent.
#[tactic(auto, using(float::proofs::Nan::no_nan_bits))]
fn packed(t: u64, k: u32) -> f32
    requires t_bound { t ≤ 0x100_0000 }
    requires k_bound { k ≤ 300 }
    ensures { result ≡ f32_at (k * 0x80_0000 + t) }
{
    let b = k * 0x80_0000 + (t as u32);
    f32::from_bits(b.min(0x7f80_0000))
}

// The f32 nearest the root of n, where w is `root` of m, which is 4 * n in squares of 2 ^ f.
fn rounded(w: u64, f: u32) -> f32
    requires w_bound { w < 0x100_0000_0000 }
    requires f_bound { f ≤ 253 }
    requires w_large { (f ≡ 0) ⊎ (0x200_0000 ≤ w) }
    ensures { (n m : ℕ) → w ≡ root_of m → 4 * n ≡ m * (2 ^ f * 2 ^ f) → result ≡ nearest_root n }
{
    let mut c = w / 4;
    let mut u: u64 = 1;
    let mut k = f;
    // No index is counted: the turns end where c has 24 digits.
    while c >= 0x100_0000 {
        c = c / 2;
        u = u * 2;
        k += 1;
    }
    let h = (2 * c + 1) * (2 * u);
    packed(nearest_whole(c, w, h), k)
}

// `hypot` of two finite sides by their patterns, the larger first. If the other is zero, or its exponent is 13 or more below, the root exceeds the
// larger by less than half of its last place.
#[tactic(auto, using(crate::proofs::Ways::times_power_lt, crate::proofs::Ways::squares_small, crate::proofs::Ways::root_small, float::proofs::Nan::no_nan_bits))]
fn finite(p: u32, q: u32) -> f32
    requires q_le_p { q ≤ p }
    requires p_bound { p < 0x7f80_0000 }
    ensures { result ≡ nearest_root (pattern_value p * pattern_value p + pattern_value q * pattern_value q) }
{
    let e = exponent(p);
    let f = exponent(q);
    if q == 0 || e - f > 12 {
        return f32::from_bits(p);
    }
    let s = (2 * times_power(significand(p), e - f)) as u128;
    let n = (2 * significand(q)) as u128;
    rounded(root(s * s + n * n), f)
}

// `hypot` in whole numbers: infinite if either side is, else NaN with NaN.
#[tactic(auto, using(float::proofs::Nan::no_nan_bits, crate::proofs::Floats::inf_bits, crate::proofs::Cases::first_inf, crate::proofs::Cases::first_nan, crate::proofs::Cases::hypot_comm))]
fn exact(a: f32, b: f32) -> f32
    ensures { result ≡ hypot_of a b }
{
    let p = unsigned_pattern(a);
    let q = unsigned_pattern(b);
    if p == 0x7f80_0000 || q == 0x7f80_0000 {
        return f32::INFINITY;
    }
    if p > 0x7f80_0000 {
        return a;
    }
    if q > 0x7f80_0000 {
        return b;
    }
    finite(p.max(q), p.min(q))
}

// The sum of the squares. An f64 holds each square exactly.
fn sum_of_squares(a: f32, b: f32) -> f64
    requires a_number { T (not (is_nan a)) }
    requires b_number { T (not (is_nan b)) }
    ensures { result ≡ sum_of_squares_of a b }
{
    let x = a as f64;
    let y = b as f64;
    x * x + y * y
}

// The pattern of the f32 nearest r, as `midpoint` has it. Nothing is relied on.
fn likely_pattern(r: f64) -> u64 {
    if r.is_nan() {
        return 0;
    }
    (f64::to_bits(r) / 0x1000_0000 % 0x10_0000_0000 + 1) / 2
}

// Halfway between the f32 with the pattern p and the next, p counting the exponents as f64 does.
#[tactic(auto, using(float::proofs::Nan::no_nan_bits))]
fn midpoint(p: u64) -> f64
    requires { p < 0x2_3f80_0000 }
    ensures { result ≡ midpoint_of p }
{
    f64::from_bits((2 * p + 1) * 0x1000_0000)
}

// Whether the f32 with the pattern p is surely the nearest to the root of the sum of squares that was rounded to t. A no leaves it open:
// `hypot` then takes the exact way.
fn surely_nearest(t: f64, p: u64) -> bool
    ensures { T result → SurelyNearest t p }
{
    if !(0x1_c080_0001..0x2_3f80_0000).contains(&p) {
        return false;
    }
    let low = midpoint(p - 1);
    let high = midpoint(p);
    low * low < t && t < high * high
}

#[tactic(auto, using(float::proofs::Nan::no_nan, float::proofs::Nan::no_nan_bits, crate::proofs::Midpoints::sure_is_nearest))]
pub fn hypot(a: f32, b: f32) -> f32
    ensures { result ≡ hypot_of a b }
{
    if a.is_nan() || b.is_nan() {
        return exact(a, b);
    }
    let t = sum_of_squares(a, b);
    let p = likely_pattern(t.sqrt());
    if surely_nearest(t, p) {
        return f32::from_bits((p - 0x1_c000_0000) as u32);
    }
    exact(a, b)
}
