// Edges of rectangles in exact tenths.
#![tactic(auto)]

ghost use Rattle.std.specs.Prelude.{◌≡◌, ◌+ℤ◌};
ghost use Rattle.numerics.specs.Value.{value, limit, AtMost};
ghost use Rattle.tenths.specs.Tenths.{tenfold_of, tenths_of};

// Ten times x in whole numbers of 2^-35, rounded down: the mantissa, whose last bit is worth 2^(exponent - 150), times 10 * 2^35.
// Below 2^-40 what is left is the sign.
fn tenfold(x: f32) -> i64
    requires { AtMost x limit }
    ensures { result ≡ tenfold_of (value x) }
{
    let n = f32::to_bits(x);
    let exponent = n % 0x8000_0000 / 0x80_0000;
    if exponent < 87 {
        if x < 0.0 {
            return -1;
        }
        return 0;
    }
    let mantissa = 0x80_0000 + n % 0x80_0000;
    let size = mantissa as i64 * 0x50_0000_0000;
    if x < 0.0 {
        return -size >> (150 - exponent);
    }
    size >> (150 - exponent)
}

// The nearest whole number to ten times the exact x + w, halves upward: with a half, 2^34, it is rounded down.
// Nothing is lost by adding tenfolds. A mantissa has 24 bits, so that a tenfold is rounded only below 2^-13: if one of the two is, rounding it down
// and then the sum is rounding the sum down once; if both are, the sum is nearest to 0. Of numbers to 2^17 a tenfold is below 2^56.
#[tactic(auto, using(crate::proofs::Machine::sum_fits, crate::proofs::Machine::more_fits, crate::proofs::Machine::whole_fits, crate::proofs::Patterns::few))]
pub fn edge(x: f32, w: f32) -> i32
    requires { AtMost x limit × AtMost w limit }
    ensures { result ≡ tenths_of (value x +ℤ value w) }
{
    ((tenfold(x) + tenfold(w) + 0x4_0000_0000) >> 35) as i32
}
