// The sections as they were read: how many entries one has, and each entry by its numbers, whatever the parts hold.
ghost use Rattle.std.specs.Prelude.{◌≡◌, List, ℕ, ◌<◌, ◌^◌, length};
ghost use Rattle.rules.specs.Lists.{Bytes};
ghost use Rattle.entries.specs.Sections.{number_of};
ghost use Rattle.sections.specs.Layout.{section_at};
ghost use Rattle.sections.specs.Access as access;
ghost use Rattle.sections.specs.Expressions as expressions;

use super::{entry_start, room_of};
use entries::{NewColumn, Section};
use numbers::datatypes::DataType;
use numbers::number;
use text::places::Place;

// An entry: its line, how many expressions it has and the row of the first, and its name.
#[derive(Clone, Copy, Debug, PartialEq, Eq)]
pub struct Entry {
    pub line: u32,
    pub expressions: u32,
    pub row: u32,
    pub name: Option<Place>,
}

impl Entry {
    // The row of its first expression, where it has one.
    pub fn first_row(self) -> Option<usize>
        ensures { result ≡ expressions.first_row self }
    {
        match self.expressions {
            0 => None,
            _ => Some(self.row as usize),
        }
    }

    // The row of the expression that an item, a group, a key and a clause have. Where the parts hold none: a row past the end of every
    // table, at which a star stands, as in the rules.
    pub fn expr_row(self) -> usize
        ensures { result ≡ expressions.expr_row self }
    {
        self.first_row().unwrap_or(usize::MAX)
    }
}

// How many entries a section has.
pub fn count(parts: &[u32], kind: Section) -> u32
    ensures { (b q : Bytes) (cells : List ℕ) → result ≡ length (section_at b q cells parts.now (number_of kind)) }
{
    number(parts, room_of(kind).start)
}

// What a number says of nulls: 1 that they are allowed, 2 that they are not, any other nothing.
#[tactic(auto, unfolding(crate::specs::Access::null_of, numbers::specs::Codes::coded))]
fn null_of(n: u32) -> Option<bool>
    ensures { result ≡ access.null_of n }
{
    match n {
        1 => Some(true),
        2 => Some(false),
        _ => None,
    }
}

// What the entry whose numbers start at i says as a new column.
fn column_from(parts: &[u32], i: usize) -> NewColumn
    requires { i < 2 ^ 63 }
    ensures { result ≡ access.column_from parts.now i }
{
    NewColumn {
        datatype: DataType::of_number(number(parts, i + 5)),
        key: number(parts, i + 6) == 1,
        nullable: null_of(number(parts, i + 7)),
        unique: number(parts, i + 8) == 1,
        index: number(parts, i + 9) == 1,
        reference: Place::of_numbers(number(parts, i + 10), number(parts, i + 11)),
    }
}

// The entry whose numbers start at i.
fn numbers_from(parts: &[u32], i: usize) -> Entry
    requires { i < 2 ^ 63 }
    ensures { result ≡ access.numbers_from parts.now i }
{
    Entry {
        line: number(parts, i),
        expressions: number(parts, i + 1),
        row: number(parts, i + 2),
        name: Place::of_numbers(number(parts, i + 3), number(parts, i + 4)),
    }
}

// Entry k of a section, from 0 on. (A `for` over the numbers asks for each: an iterator of our own would be a struct with a `next`,
// to save a line at each.)
pub fn entry_at(parts: &[u32], kind: Section, k: u32) -> Entry
    ensures { result ≡ access.numbers_at parts.now (number_of kind) k }
{
    numbers_from(parts, entry_start(kind, k))
}

// Whether key k of ORDER descends.
pub fn descends(parts: &[u32], k: u32) -> bool
    ensures { result ≡ access.descends parts.now k }
{
    number(parts, entry_start(Section::Order, k) + 5) == 1
}

// What new column k says beside its name and its default.
pub fn new_column(parts: &[u32], k: u32) -> NewColumn
    ensures { result ≡ access.new_column parts.now k }
{
    column_from(parts, entry_start(Section::Column, k))
}
