// The statement from its text: its expressions in a table of rows (crate ast), its FROM items and its other parts in two more slices.
#![tactic(auto)]

pub mod access;
mod bodies;
mod first;

ghost use Rattle.std.specs.Prelude.{◌≡◌, Bool, ℕ};
ghost use Rattle.rules.specs.Lists.{Bytes};
ghost use Rattle.rules.specs.Ast.{Statement};
ghost use Rattle.rules.specs.Sizes.{statement_size};
ghost use Rattle.rules.specs.Lines.{Word};
ghost use Rattle.statement.specs.Layout.{statement_at};
ghost use Rattle.read_expression.specs.Reading.{Position, Given};
ghost use Rattle.statement.specs.Kinds.{number_of};
ghost use Rattle.statement.specs.FirstRecord.{head_of};
ghost use Rattle.statement.specs.EndRecord.{ended, Is, WholeRead};
ghost use Rattle.statement.specs.Whole.{statement_of, statement_answer, Counts, SelectStays};

use crate::access::Kind;
use crate::bodies::read_body;
use crate::first::{first_record, put_first};
use numbers::refusals::{Reason, Refusal};
use read_expression::reading::Cursor;

// How many numbers the expression table takes.
pub const CELL_NUMBERS: usize = ast::rows::TABLE_SIZE;

// How many the FROM rows take.
pub const FROM_NUMBERS: usize = from::FROM_NUMBERS;

// How many all other parts take.
pub const PART_NUMBERS: usize = sections::PART_NUMBERS;

// The record `end`, with nothing behind it.
fn read_end(t: &[u8], at: Cursor) -> Result<Cursor, Refusal>
    requires { Position t.now at.position at.line at.rows }
    ensures { (s : Statement) (k : ℕ) → Given (ended s) (Is s) t.now at.position at.line at.rows k result }
{
    let f = text::fields(t, at.position);
    if !text::equal(f.field(t, 0), b"end") {
        return Err(Reason::WrongRecord.at(at.line));
    }
    if f.count != 1 {
        return Err(Reason::WrongRecord.at(at.line));
    }
    if f.next < t.len() {
        return Err(Reason::WrongRecord.at(at.line + 1));
    }
    Ok(at.behind(f.next))
}

// All behind the first record, which is of a kind.
fn read_behind(
    t: &[u8],
    p: usize,
    kind: Kind,
    cells: &mut [u32; CELL_NUMBERS],
    froms: &mut [u32; FROM_NUMBERS],
    parts: &mut [u32; PART_NUMBERS],
) -> Result<Cursor, Refusal>
    requires { Position t.now p 2 0 }
    ensures { (n : Word) (y : Bool) → WholeRead t.now (head_of (number_of kind) n y) p cells.new froms.new parts.old
        parts.new result }
{
    let behind = read_body(t, p, kind, cells, froms, parts)?;
    read_end(t, behind)
}

// The statement from its text, whatever that is, and how many expression cells it has. Where it is refused the numbers mean nothing.
pub fn read_statement(
    statement: &[u8],
    cells: &mut [u32; CELL_NUMBERS],
    froms: &mut [u32; FROM_NUMBERS],
    parts: &mut [u32; PART_NUMBERS],
) -> Result<u32, Refusal>
    ensures { ((b : Bytes) → statement_of b statement.now cells.new froms.new parts.new result
        ≡ statement_answer statement.now) × ((b : Bytes) → Counts (statement_size
        (statement_at b statement.now cells.new froms.new parts.new)) result)
        × SelectStays statement.now cells.new parts.new result }
{
    if (text::MOST_BYTES as usize) < statement.len() {
        return Err(Reason::LimitPassed.at(0));
    }
    let line = lines::first_fields(statement);
    let f = first_record(statement, line).ok_or(Reason::WrongRecord.at(1))?;
    put_first(parts, f);
    let behind = read_behind(statement, line.next, f.kind, cells, froms, parts)?;
    Ok(behind.rows)
}
