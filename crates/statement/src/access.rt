// A statement as it was read: its kind, its own numbers, its clauses, and what its entries say, whatever the slices hold.
// With the kind the laws of specs/Access.antt give the statement, with an entry those of specs/EntryAccess.antt its k-th parts.
ghost use Rattle.std.specs.Prelude.{◌≡◌};
ghost use Rattle.numbers.specs.Values.{is_one};
ghost use Rattle.entries.specs.Sections as sections;
ghost use Rattle.statement.specs.Kinds.{number_of};
ghost use Rattle.statement.specs.Access as access;
ghost use Rattle.statement.specs.EntryAccess as entryAccess;

use entries::Section;
use numbers::number;
use sections::entry::{count, entry_at};
use text::places::Place;

// Where the statement's own numbers stand in the parts, which are lent zeroed (reader_read_texts) and so stay numbers.
pub const KIND: usize = 0;

pub const LINE: usize = 1;

// Of the name the address, and behind that the length.
pub const NAME: usize = 2;

pub const FLAG: usize = 4;

pub const FROM_ROWS: usize = 2367;

// The kinds of statements by the numbers that stand in the parts.
#[derive(Clone, Copy, Debug, PartialEq, Eq)]
pub enum Kind {
    Select = 1,
    Create,
    Drop,
    Delete,
    Insert,
    Update,
    Other,
}

// A clause: the line of its record, and the row of its expression.
#[derive(Clone, Copy, Debug, PartialEq, Eq)]
pub struct Clause {
    pub line: u32,
    pub row: usize,
}

impl From<Kind> for u32 {
    ghost from_gives = { λ kind number. number ≡ number_of kind };

    fn from(kind: Kind) -> u32 {
        kind as u32
    }
}

#[tactic(auto, unfolding(crate::specs::Access::kind_of, numbers::specs::Codes::coded))]
pub fn kind_of(parts: &[u32]) -> Kind
    ensures { result ≡ access.kind_of (access.kind_number parts.now) }
{
    let k = number(parts, KIND);
    match k {
        1 => Kind::Select,
        2 => Kind::Create,
        3 => Kind::Drop,
        4 => Kind::Delete,
        5 => Kind::Insert,
        6 => Kind::Update,
        _ => Kind::Other,
    }
}

// The line of the statement's first record.
pub fn line(parts: &[u32]) -> u32
    ensures { result ≡ access.line_at parts.now }
{
    number(parts, LINE)
}

// The place of the statement's name: the table that it names.
pub fn name(parts: &[u32]) -> Place
    ensures address { result.address ≡ access.name_address parts.now }
    ensures length { result.length ≡ access.name_length parts.now }
{
    Place::at(parts, NAME)
}

// Whether a DROP has IF EXISTS.
#[tactic(auto, unfolding(numbers::specs::Values::is_one))]
pub fn if_exists(parts: &[u32]) -> bool
    ensures { result ≡ is_one (access.drop_flag parts.now) }
{
    number(parts, FLAG) == 1
}

// How many FROM rows a SELECT has.
pub fn from_rows(parts: &[u32]) -> u32
    ensures { result ≡ access.from_rows parts.now }
{
    number(parts, FROM_ROWS)
}

// The clause of a kind of section, if there is one.
pub fn clause_at(parts: &[u32], kind: Section) -> Option<Clause>
    ensures { result ≡ entryAccess.clause_at parts.now (sections.number_of kind) }
{
    if count(parts, kind) == 0 {
        return None;
    }
    let e = entry_at(parts, kind, 0);
    Some(Clause {
        line: e.line,
        row: e.expr_row(),
    })
}

// The place of a name that has to be there; of no bytes where there is none.
#[tactic(auto, unfolding(crate::specs::Access::name_or))]
pub fn name_or(name: Option<Place>) -> Place
    ensures { result ≡ access.name_or name }
{
    name.unwrap_or(Place {
        address: 0,
        length: 0,
    })
}
