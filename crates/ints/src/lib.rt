// Checked arithmetic on 64-bit integers (value.rs, checked_add .. checked_sub): the exact result, or why there is none.
#![tactic(auto)]

pub mod bits;

ghost use Rattle.std.specs.Prelude.{◌≡◌, pos, neg_ℤ, ◌+ℤ◌, ◌-ℤ◌, ◌*ℤ◌};
ghost use Rattle.rules.specs.Arithmetic as rule;
ghost use Rattle.rules.specs.Arithmetic.{fitted, quotient, remainder, raised};
ghost use Rattle.ints.specs.Checked.{checked};

use numbers::refusals::Reason;

pub fn add(x: i64, y: i64) -> Result<i64, Reason>
    ensures { checked result ≡ fitted (x +ℤ y) }
{
    x.checked_add(y).ok_or(Reason::IntegerOverflow)
}

pub fn sub(x: i64, y: i64) -> Result<i64, Reason>
    ensures { checked result ≡ fitted (x -ℤ y) }
{
    x.checked_sub(y).ok_or(Reason::IntegerOverflow)
}

pub fn neg(x: i64) -> Result<i64, Reason>
    ensures { checked result ≡ fitted (neg_ℤ x) }
{
    x.checked_neg().ok_or(Reason::IntegerOverflow)
}

pub fn mul(x: i64, y: i64) -> Result<i64, Reason>
    ensures { checked result ≡ fitted (x *ℤ y) }
{
    x.checked_mul(y).ok_or(Reason::IntegerOverflow)
}

// Toward zero.
pub fn div(x: i64, y: i64) -> Result<i64, Reason>
    ensures { checked result ≡ quotient x y }
{
    if y == 0 {
        return Err(Reason::DivisionByZero);
    }
    x.checked_div(y).ok_or(Reason::IntegerOverflow)
}

// With the dividend's sign; refused where the quotient is. Apart from `div`: what they share is one test, and a function of it
// would take a closure.
pub fn rem(x: i64, y: i64) -> Result<i64, Reason>
    ensures { checked result ≡ remainder x y }
{
    if y == 0 {
        return Err(Reason::DivisionByZero);
    }
    x.checked_rem(y).ok_or(Reason::IntegerOverflow)
}

// x to the power e, which is a number of 32 bits.
pub fn pow(x: i64, e: u64) -> Result<i64, Reason>
    ensures { checked result ≡ raised x (pos e) }
{
    let exponent = u32::try_from(e).map_err(|_| Reason::IntegerOverflow)?;
    x.checked_pow(exponent).ok_or(Reason::IntegerOverflow)
}

// At most 21 turns, since 21! is past 64 bits.
pub fn factorial(n: u64) -> Result<i64, Reason>
    ensures { checked result ≡ rule.factorial (pos n) }
{
    let mut product: u64 = 1;
    for k in 1..=n {
        product = product.checked_mul(k).ok_or(Reason::IntegerOverflow)?;
    }
    i64::try_from(product).map_err(|_| Reason::IntegerOverflow)
}
