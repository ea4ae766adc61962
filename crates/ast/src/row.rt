// The record at a row by name: its kind, its line, its places, its operator, its literal. With the kind the laws of
// specs/Row.antt give the tree at the row.
ghost use Rattle.std.specs.Prelude.{◌≡◌};
ghost use Rattle.numbers.specs.Operators.{unary_operator, binary_operator};
ghost use Rattle.ast.specs.Table.{unary_at, binary_at};
ghost use Rattle.ast.specs.Operands.{kind_at};
ghost use Rattle.ast.specs.Row as row;

use crate::rows::{at, place_at};
use numbers::literals::Literal;
use numbers::operators::{Binary, Unary};
use text::places::Place;

#[derive(Clone, Copy, Debug, PartialEq, Eq)]
pub enum Kind {
    Star = 1,
    Column,
    Qualified,
    Call,
    Unary,
    Binary,
    Is,
    Literal,
}

impl From<Kind> for u32 {
    ghost from_gives = { λ kind number. number ≡ row.number_of kind };

    fn from(kind: Kind) -> u32 {
        kind as u32
    }
}

// The kind of the record at a row; a star where the number is none.
#[tactic(auto, unfolding(crate::specs::Row::number_of, crate::specs::Operands::kind_at, numbers::specs::Codes::or_least))]
pub fn kind_of(table: &[u32], r: usize) -> Kind
    ensures { row.number_of result ≡ kind_at table.now r }
{
    match at(table, r, 0) {
        2 => Kind::Column,
        3 => Kind::Qualified,
        4 => Kind::Call,
        5 => Kind::Unary,
        6 => Kind::Binary,
        7 => Kind::Is,
        8 => Kind::Literal,
        _ => Kind::Star,
    }
}

pub fn line(table: &[u32], r: usize) -> u32
    ensures { result ≡ row.line_at table.now r }
{
    at(table, r, 1)
}

// The place of a column's or a function's name.
pub fn name(table: &[u32], r: usize) -> Place
    ensures address { result.address ≡ row.name_address table.now r }
    ensures length { result.length ≡ row.name_length table.now r }
{
    place_at(table, r, 4)
}

// The place of the table's name that qualifies a column.
pub fn qualifier(table: &[u32], r: usize) -> Place
    ensures address { result.address ≡ row.qualifier_address table.now r }
    ensures length { result.length ≡ row.qualifier_length table.now r }
{
    place_at(table, r, 6)
}

// How many arguments a call has.
pub fn arguments(table: &[u32], r: usize) -> u32
    ensures { result ≡ row.argument_count table.now r }
{
    at(table, r, 3)
}

// A unary operator; the least where its number is none.
pub fn unary_operator(table: &[u32], r: usize) -> Unary
    ensures { unary_operator result ≡ unary_at (row.operator_at table.now r) }
{
    Unary::try_from(at(table, r, 3)).unwrap_or(Unary::Not)
}

// A binary one.
pub fn binary_operator(table: &[u32], r: usize) -> Binary
    ensures { binary_operator result ≡ binary_at (row.operator_at table.now r) }
{
    Binary::try_from(at(table, r, 3)).unwrap_or(Binary::And)
}

pub fn literal(table: &[u32], r: usize) -> Literal
    ensures { result ≡ row.literal_at table.now r }
{
    Literal::of_numbers(at(table, r, 3), at(table, r, 4), at(table, r, 5))
}
