// A float's 64 bits, and back.
ghost use Rattle.std.specs.Prelude.{◌≡◌, to_bits};
ghost use Rattle.std.specs.Float.{binary64};
ghost use Rattle.rules.specs.Arithmetic.{float_of};

use numbers::literals::is_nan;

// Every NaN's bits give the NaN.
pub fn from_bits(n: u64) -> f64
    ensures { result ≡ float_of n }
{
    if is_nan(n) {
        return f64::NAN;
    }
    f64::from_bits(n)
}

// 7ff8000000000000 of a NaN.
pub fn to_bits(x: f64) -> u64
    ensures { result ≡ to_bits binary64 x }
{
    if x.is_nan() {
        return 0x7ff8_0000_0000_0000;
    }
    f64::to_bits(x)
}
