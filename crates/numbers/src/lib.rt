// The numbers of document 01 (operators, literals, datatypes, aggregates, refusals) as enums, and numbers of 32 bits in a lent slice.
#![tactic(auto)]

pub mod aggregates; // aggregates.rt: the aggregate functions
pub mod datatypes; // datatypes.rt: the datatypes of columns
pub mod halves;
pub mod literals; // literals.rt: literals by their kinds and two numbers
pub mod operators; // operators.rt: the operators of expressions
pub mod options; // options.rt: numbers that may be missing
pub mod refusals; // refusals.rt: why a statement is refused, and where

ghost use Rattle.std.specs.Prelude.{◌≡◌, [], ◌∷◌, ◌+◌, ◌≤◌, length, get_or, take};
ghost use Rattle.std.proofs.lemmas.List.Edits.{sets};

// A number that no variant has.
#[derive(Clone, Copy, Debug, PartialEq, Eq)]
pub struct UnknownNumber;

// The number at i, and 0 past the end.
pub fn number(s: &[u32], i: usize) -> u32
    ensures { result ≡ get_or s.now i 0 }
{
    s.get(i).copied().unwrap_or(0)
}

// The first n, or as many of them as there are.
pub fn first<T>(s: &[T], n: usize) -> &[T]
    ensures { result.now ≡ take n s.now }
{
    &s[..n.min(s.len())]
}

// The numbers, from i on.
pub fn put<const N: usize>(s: &mut [u32], i: usize, numbers: [u32; N])
    requires { i + N ≤ length s.old }
    ensures { s.new ≡ sets s.old i numbers.entry }
{
    s[i..i + N].copy_from_slice(&numbers);
}
