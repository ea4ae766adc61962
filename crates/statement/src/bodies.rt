// What stands behind a statement's first record: its sections and its FROM items.
ghost use Rattle.std.specs.Prelude.{◌≡◌, Bool, List, ℕ};
ghost use Rattle.rules.specs.Lists.{Bytes};
ghost use Rattle.rules.specs.Lines.{Word};
ghost use Rattle.rules.specs.ReadStatement.{select_head, insert_head, update_head};
ghost use Rattle.read_expression.specs.Reading.{Position, Given};
ghost use Rattle.entries.specs.Entries.{Entry};
ghost use Rattle.sections.specs.Layout.{section_at};
ghost use Rattle.statement.specs.Bodies.{names_behind};
ghost use Rattle.statement.specs.Kinds.{number_of};
ghost use Rattle.statement.specs.FirstRecord.{head_of};
ghost use Rattle.statement.specs.Clauses.{run, RunRead};
ghost use Rattle.statement.specs.BodyReads.{SecondLine, BodyRead};
ghost use Rattle.statement.specs.InsertReads.{NamesRead};

use crate::access::{FROM_ROWS, Kind};
use ast::rows::TABLE_SIZE;
use entries::Section;
use from::{FROM_NUMBERS, read_froms};
use numbers::refusals::Refusal;
use read_expression::reading::Cursor;
use sections::entry::count;
use sections::{PART_NUMBERS, read_section, read_some};

// The clauses of a SELECT behind its FROM.
const CLAUSES: [Section; 6] = [
    Section::Where,
    Section::Group,
    Section::Having,
    Section::Order,
    Section::Offset,
    Section::Limit,
];

// Where the second line starts, before any expression.
fn second_line(position: usize) -> Cursor
    ensures { result ≡ record { position = position; line = 2; rows = 0 } }
{
    Cursor {
        position,
        line: 2,
        rows: 0,
    }
}

// The clauses that stand here.
fn read_clauses(
    t: &[u8],
    at: Cursor,
    cells: &mut [u32; TABLE_SIZE],
    parts: &mut [u32; PART_NUMBERS],
) -> Result<Cursor, Refusal>
    requires { Position t.now at.position at.line at.rows }
    ensures { (k : ℕ) → Given (run 1 6) (RunRead t.now 1 6 at.rows cells.old cells.new parts.old parts.new) t.now
        at.position at.line at.rows k result }
{
    let mut behind = at;
    for clause in CLAUSES {
        behind = read_section(t, behind, clause, cells, parts)?;
    }
    Ok(behind)
}

// A SELECT's items, FROM and clauses.
fn read_select(
    t: &[u8],
    at: Cursor,
    cells: &mut [u32; TABLE_SIZE],
    froms: &mut [u32; FROM_NUMBERS],
    parts: &mut [u32; PART_NUMBERS],
) -> Result<Cursor, Refusal>
    requires { SecondLine t.now at }
    ensures { BodyRead t.now select_head at.position cells.new froms.new parts.old parts.new result }
{
    let items = read_some(t, at, Section::Item, cells, parts)?;
    let f = read_froms(t, items, cells, froms)?;
    let clauses = read_clauses(t, f.at, cells, parts)?;
    parts[FROM_ROWS] = f.rows;
    Ok(clauses)
}

// The names behind a `columns`, where one was read.
fn read_names(
    t: &[u8],
    at: Cursor,
    cells: &mut [u32; TABLE_SIZE],
    parts: &mut [u32; PART_NUMBERS],
) -> Result<Cursor, Refusal>
    requires { Position t.now at.position at.line at.rows }
    ensures { (cs : List Entry) (k : ℕ) → ((b : Bytes) → section_at b t.now cells.old parts.old 7 ≡ cs)
        → Given (names_behind cs) (NamesRead t.now cs at.rows cells.old cells.new parts.old parts.new) t.now at.position
        at.line at.rows k result }
{
    if count(parts, Section::Columns) == 0 {
        return Ok(at);
    }
    read_section(t, at, Section::Name, cells, parts)
}

// An INSERT's names and rows.
fn read_insert(
    t: &[u8],
    at: Cursor,
    cells: &mut [u32; TABLE_SIZE],
    parts: &mut [u32; PART_NUMBERS],
) -> Result<Cursor, Refusal>
    requires { SecondLine t.now at }
    ensures { (n : Word) (froms : List ℕ) → BodyRead t.now (insert_head n) at.position cells.new froms parts.old parts.new result }
{
    let columns = read_section(t, at, Section::Columns, cells, parts)?;
    let names = read_names(t, columns, cells, parts)?;
    read_some(t, names, Section::Row, cells, parts)
}

// An UPDATE's sets and `where`.
fn read_update(
    t: &[u8],
    at: Cursor,
    cells: &mut [u32; TABLE_SIZE],
    parts: &mut [u32; PART_NUMBERS],
) -> Result<Cursor, Refusal>
    requires { SecondLine t.now at }
    ensures { (n : Word) (froms : List ℕ) → BodyRead t.now (update_head n) at.position cells.new froms parts.old parts.new result }
{
    let sets = read_some(t, at, Section::Set, cells, parts)?;
    read_section(t, sets, Section::Where, cells, parts)
}

// What stands behind the first record of a statement of a kind.
pub fn read_body(
    t: &[u8],
    p: usize,
    kind: Kind,
    cells: &mut [u32; TABLE_SIZE],
    froms: &mut [u32; FROM_NUMBERS],
    parts: &mut [u32; PART_NUMBERS],
) -> Result<Cursor, Refusal>
    requires { Position t.now p 2 0 }
    ensures { (n : Word) (y : Bool) → BodyRead t.now (head_of (number_of kind) n y) p cells.new froms.new parts.old
        parts.new result }
{
    let at = second_line(p);
    match kind {
        Kind::Select => read_select(t, at, cells, froms, parts),
        Kind::Create => read_section(t, at, Section::Column, cells, parts),
        Kind::Delete => read_section(t, at, Section::Where, cells, parts),
        Kind::Insert => read_insert(t, at, cells, parts),
        Kind::Update => read_update(t, at, cells, parts),
        Kind::Drop | Kind::Other => Ok(at),
    }
}
