// f32 helpers, as Rust's library has them.
#![tactic(auto)]

ghost use Rattle.std.specs.Prelude.{◌≡◌, T, if◌then◌else◌, from_bits, to_bits};
ghost use Rattle.std.specs.Float.{binary32};
ghost use Rattle.std.specs.Float.Ieee.{le};
ghost use Rattle.float.specs.MinMax.{min_of, max_of, clamp_of, abs_of, is_finite_of};

// Rust's `std::f32::consts::SQRT_2`.
pub const SQRT_2: f32 = 1.41421356237309504880;

// An `if` as a value, for use inside arithmetic: the function around it then has one path, and its proof no cases.
pub fn pick(c: bool, a: f32, b: f32) -> f32
    ensures { result ≡ (if c then a else b) }
{
    if c { a } else { b }
}

// Not std's `min` and `max`: these leave open which of 0 and -0 is given, where this is the first.
#[tactic(auto, unfolding(crate::specs::MinMax::min_of), using(crate::proofs::Nan::is_nan_is))]
pub fn min(a: f32, b: f32) -> f32
    ensures { result ≡ min_of a b }
{
    if a.is_nan() || b < a { b } else { a }
}

#[tactic(auto, unfolding(crate::specs::MinMax::max_of), using(crate::proofs::Nan::is_nan_is))]
pub fn max(a: f32, b: f32) -> f32
    ensures { result ≡ max_of a b }
{
    if a.is_nan() || a < b { b } else { a }
}

// Rust's clamp asserts low <= high; here that is required. The order of the two tests is Rust's.
#[tactic(auto, using(crate::proofs::Ends::clamp_is))]
pub fn clamp(x: f32, low: f32, high: f32) -> f32
    requires { T (le low high) }
    ensures { result ≡ clamp_of x low high }
{
    x.clamp(low, high)
}

#[tactic(auto, using(crate::proofs::Signs::abs_is))]
pub fn abs(x: f32) -> f32
    ensures { result ≡ abs_of x }
{
    x.abs()
}

#[tactic(auto, using(crate::proofs::Signs::is_finite_is))]
pub fn is_finite(x: f32) -> bool
    ensures { result ≡ is_finite_of x }
{
    x.is_finite()
}

// The bit pattern of x; every NaN has 7FC00000.
pub fn to_bits(x: f32) -> u32
    ensures { result ≡ to_bits binary32 x }
{
    std::num::f32_to_bits_with_nan(x)
}

// The f32 with the bit pattern n; each NaN pattern gives the one NaN.
pub fn from_bits(n: u32) -> f32
    ensures { result ≡ from_bits binary32 n }
{
    std::num::f32_from_bits_with_nan(n)
}
