// FROM's rows by name: a table, or a join with its sides and its predicate, whatever the rows hold. With the kind the laws
// of specs/Access.antt give the tree at a row.
ghost use Rattle.std.specs.Prelude.{◌≡◌};
ghost use Rattle.text.specs.Places.{place_of};
ghost use Rattle.from.specs.Access as access;
ghost use Rattle.from.specs.Numbers.{number_of};

use ast::rows::{at, place_at};
use numbers::options::of_number;
use text::places::Place;

// The kinds of rows, by their numbers in the rows, which are lent zeroed (reader_read_texts) and so stay numbers.
#[derive(Clone, Copy, Debug, PartialEq, Eq)]
pub enum Kind {
    Table = 1,
    Cross,
    Inner,
    Left,
    Right,
}

impl From<Kind> for u32 {
    ghost from_gives = { λ kind number. number ≡ number_of kind };

    fn from(kind: Kind) -> u32 {
        kind as u32
    }
}

// The kind of a number; a right join where it is no other's, which From would not say.
#[tactic(auto, unfolding(crate::specs::Access::kind_of, numbers::specs::Codes::coded))]
fn kind_by(k: u32) -> Kind
    ensures { result ≡ access.kind_of k }
{
    match k {
        1 => Kind::Table,
        2 => Kind::Cross,
        3 => Kind::Inner,
        4 => Kind::Left,
        _ => Kind::Right,
    }
}

// The kind of a row; the first is a table.
pub fn kind_of(rows: &[u32], r: u32) -> Kind
    ensures { result ≡ access.kind_at rows.now r }
{
    if r == 0 {
        return Kind::Table;
    }
    kind_by(at(rows, r as usize, 0))
}

pub fn line(rows: &[u32], r: u32) -> u32
    ensures { result ≡ access.line_at rows.now r }
{
    at(rows, r as usize, 1)
}

// The row of a join's predicate among the expressions, where it has one.
pub fn predicate_of(rows: &[u32], r: u32) -> Option<u32>
    ensures { result ≡ access.predicate_row (access.predicate_number rows.now r) }
{
    of_number(at(rows, r as usize, 2))
}

// The place of a table's name.
pub fn name(rows: &[u32], r: u32) -> Place
    ensures address { result.address ≡ access.name_address rows.now r }
    ensures length { result.length ≡ access.name_length rows.now r }
{
    place_at(rows, r as usize, 3)
}

// That of its alias.
pub fn alias(rows: &[u32], r: u32) -> Option<Place>
    ensures { result ≡ place_of (access.alias_address rows.now r) (access.alias_length rows.now r) }
{
    Place::of_numbers(at(rows, r as usize, 5), at(rows, r as usize, 6))
}
