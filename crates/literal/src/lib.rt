// Literals in text: an integer in shortest signed decimal, a float in 16 lower-case hexadecimal digits, both by their 64 bits.
#![tactic(auto)]

pub mod planned;
pub mod record;

ghost use Rattle.std.specs.Prelude.{◌≡◌, pos};
ghost use Rattle.std.proofs.Math.Option.{some};
ghost use Rattle.rules.specs.Lists.{map_option};
ghost use Rattle.rules.specs.Lines as lines;
ghost use Rattle.numbers.specs.Options.{option_of};
ghost use Rattle.numbers.specs.Bits.{signed};

// The greatest integer.
const GREATEST: u64 = 9223372036854775807;

// An integer with no sign, in two's complement.
fn positive(m: u64) -> Option<u64>
    ensures { map_option signed (option_of result) ≡ map_option pos (lines.within 9223372036854775807 (some m)) }
{
    if GREATEST < m {
        return None;
    }
    Some(m)
}

// An integer behind its sign, in two's complement; `-0` is none.
fn negative(m: u64) -> Option<u64>
    ensures { map_option signed (option_of result) ≡ lines.negated (lines.within 9223372036854775808 (some m)) }
{
    if GREATEST + 1 < m {
        return None;
    }
    if m == 0 {
        return None;
    }
    Some(m.wrapping_neg())
}

// The integer that bytes are, by its 64 bits in two's complement.
pub fn int(x: &[u8]) -> Option<u64>
    ensures { map_option signed (option_of result) ≡ lines.integer x.now }
{
    match x {
        [b'-', rest @ ..] => negative(text::decimal(rest, GREATEST + 2)?),
        _ => positive(text::decimal(x, GREATEST + 2)?),
    }
}

// A hexadecimal digit's value.
fn hex_digit(b: u8) -> Option<u64>
    ensures { option_of result ≡ lines.hex_digit b }
{
    match b {
        b'0'..=b'9' => Some((b - b'0') as u64),
        b'a'..=b'f' => Some((b - b'a') as u64 + 10),
        _ => None,
    }
}

// The bits of the float that bytes are.
pub fn float(x: &[u8]) -> Option<u64>
    ensures { option_of result ≡ lines.float x.now }
{
    if x.len() != 16 {
        return None;
    }
    let mut v: u64 = 0;
    for &b in x {
        v = v * 16 + hex_digit(b)?;
    }
    Some(v)
}
