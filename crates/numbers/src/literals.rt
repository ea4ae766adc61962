// Literals: a kind and two numbers (specs/Literals.antt).
ghost use Rattle.std.specs.Prelude.{◌≡◌, ◌+◌, ◌/◌, ◌%◌, ◌^◌, ◌≤◌, length};
ghost use Rattle.std.proofs.lemmas.List.Edits.{sets};
ghost use Rattle.rules.specs.Lists.{Bytes};
ghost use Rattle.rules.specs.Schema.{float};
ghost use Rattle.rules.specs.BuildExpression.{is_null_or_nan};
ghost use Rattle.numbers.specs.Bits as bits;
ghost use Rattle.numbers.specs.Literals.{kind_number, kind_at, literal_value, numbered, given_numbers};

use super::halves::{high, joined, low};
use super::put;

// The kinds of literals, with their numbers in the statement's table, which are those of their cells (docs/PLAN.md).
#[derive(Clone, Copy, Debug, PartialEq, Eq)]
pub enum LiteralKind {
    Null = 1,
    Bool,
    Int,
    Float,
    Text,
}

impl From<LiteralKind> for u32 {
    ghost from_gives = { λ kind number. number ≡ kind_number kind };

    fn from(kind: LiteralKind) -> u32 {
        kind as u32
    }
}

impl LiteralKind {
    // The kind of a number; a null's where it is none's, which From would not say.
    #[tactic(auto, unfolding(crate::specs::Literals::kind_at, crate::specs::Codes::coded))]
    pub fn of_number(n: u32) -> LiteralKind
        ensures { result ≡ kind_at n }
    {
        match n {
            2 => LiteralKind::Bool,
            3 => LiteralKind::Int,
            4 => LiteralKind::Float,
            5 => LiteralKind::Text,
            _ => LiteralKind::Null,
        }
    }
}

// Its numbers are a flag; the 64 bits of an integer or a float, the low half first; or a text's address and length.
// They stand so in a row and in a cell: an enum would be made of the one and taken apart for the other.
#[derive(Clone, Copy, Debug, PartialEq, Eq)]
pub struct Literal {
    pub kind: LiteralKind,
    pub first: u32,
    pub second: u32,
}

impl Literal {
    // The literal of three numbers.
    pub fn of_numbers(kind: u32, first: u32, second: u32) -> Literal
        ensures { result ≡ numbered kind first second }
    {
        Literal {
            kind: LiteralKind::of_number(kind),
            first,
            second,
        }
    }

    // The literal of 64 bits, the low half first.
    pub fn of_bits(kind: LiteralKind, bits: u64) -> Literal
        ensures { result ≡ record { kind = kind; first = bits % 2 ^ 32; second = bits / 2 ^ 32 } }
    {
        Literal {
            kind,
            first: low(bits),
            second: high(bits),
        }
    }

    // Its 64 bits, if it is an integer or a float.
    pub fn bits(self) -> u64
        ensures { result ≡ bits.joined self.first self.second }
    {
        joined(self.first, self.second)
    }

    #[tactic(auto, unfolding(crate::specs::Literals::literal_of, rules::specs::BuildExpression::is_null_or_nan))]
    pub fn is_null_or_nan(self) -> bool
        ensures { (c q : Bytes) → result ≡ is_null_or_nan (literal_value c q self) }
    {
        match self.kind {
            LiteralKind::Null => true,
            LiteralKind::Float => is_nan(self.bits()),
            LiteralKind::Bool | LiteralKind::Int | LiteralKind::Text => false,
        }
    }
}

// The numbers of a literal that may be missing, in four places from i on; all 0 where it is.
#[tactic(auto, unfolding(crate::specs::Literals::given_numbers))]
pub fn put_given(s: &mut [u32], i: usize, literal: Option<Literal>)
    requires { i + 4 ≤ length s.old }
    ensures { s.new ≡ sets s.old i (given_numbers literal) }
{
    match literal {
        None => put(s, i, [0, 0, 0, 0]),
        Some(x) => put(s, i, [u32::from(x.kind), x.first, x.second, 0]),
    }
}

// Whether the bits n are a NaN's.
#[tactic(auto, unfolding(rules::specs::BuildExpression::is_null_or_nan))]
pub fn is_nan(n: u64) -> bool
    ensures { result ≡ is_null_or_nan (float n) }
{
    n % 0x8000_0000_0000_0000 > 0x7ff0_0000_0000_0000
}
