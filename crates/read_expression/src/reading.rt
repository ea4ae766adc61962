// The statement's expressions from their records into the table: root first, each row written behind its operands' rows.
ghost use Rattle.std.specs.Prelude.{◌≡◌, [], ◌∷◌, ℕ, ◌+◌, ◌*◌, ◌^◌, ◌≤◌, ◌<◌};
ghost use Rattle.std.proofs.lemmas.List.Edits.{sets};
ghost use Rattle.rules.specs.Limits.{most_cells};
ghost use Rattle.rules.specs.Ast.{cons, nil};
ghost use Rattle.rules.specs.Reader.{literal_here};
ghost use Rattle.rules.specs.ReadExpression.{deep, times, expression};
ghost use Rattle.ast.specs.Row.{number_of};
ghost use Rattle.ast.specs.Table.{row_size, statement_rows, starred_rows};
ghost use Rattle.read_expression.specs.Reading.{Position, Given, Rows, IsRow};

use crate::heads::{Row, head, literal_row};
use ast::row::Kind;
use ast::rows::{ROW_SIZE, STATEMENT_ROWS, TABLE_SIZE};
use literal::record::literal_at;
use numbers::put;
use numbers::refusals::{Reason, Refusal};
use text::MOST_BYTES;

// Most levels of an expression, a leaf 1.
const DEPTH: u32 = 32;

// Where reading stands: the line, how many expression rows there are so far, and the position in the text. (Apart from the text,
// which stays as it is: with it in the cursor each result would have to say that its text is still that one.)
#[derive(Clone, Copy, Debug, PartialEq, Eq)]
pub struct Cursor {
    pub line: u32,
    pub rows: u32,
    pub position: usize,
}

impl Cursor {
    // Behind a record here, at the start of the next line.
    pub fn behind(self, next: usize) -> Cursor
        requires { self.line + 1 < 2 ^ 32 }
        ensures { result ≡ record { position = next; line = self.line + 1; rows = self.rows } }
    {
        Cursor {
            position: next,
            line: self.line + 1,
            ..self
        }
    }
}

// The row c of a record: what it says, its line, and how many rows its tree has.
pub fn put_row(cells: &mut [u32; TABLE_SIZE], c: u32, line: u32, rows: u32, h: Row)
    requires { c < statement_rows + starred_rows }
    ensures { cells.new ≡ sets cells.old (row_size * c) (number_of h.kind ∷ line ∷ rows ∷ h.code ∷ h.a ∷ h.b ∷ h.c ∷ h.d ∷
        []) }
{
    let i = ROW_SIZE * c as usize;
    put(
        cells,
        i,
        [u32::from(h.kind), line, rows, h.code, h.a, h.b, h.c, h.d],
    );
}

// The literal behind the operand of an `is` at row c; and that row, on its line.
fn read_is(
    t: &[u8],
    at: Cursor,
    c: u32,
    line: u32,
    cells: &mut [u32; TABLE_SIZE],
) -> Result<Cursor, Refusal>
    requires position { Position t.now at.position at.line at.rows }
    requires room { c < at.rows }
    ensures { (k : ℕ) → Given literal_here (IsRow t.now c at.rows line cells.old cells.new) t.now at.position at.line
        at.rows k result }
{
    let f = text::fields(t, at.position);
    let literal = literal_at(t, MOST_BYTES, at.position, &f);
    let v = literal.ok_or(Reason::WrongRecord.at(at.line))?;
    let h = Row {
        kind: Kind::Is,
        operands: 1,
        ..literal_row(v)
    };
    put_row(cells, c, line, at.rows - c, h);
    Ok(at.behind(f.next))
}

// n expressions in a row, at most `depth` deep.
#[cycle(read_deep_read_times)]
fn read_times(
    t: &[u8],
    at: Cursor,
    depth: u32,
    n: u32,
    cells: &mut [u32; TABLE_SIZE],
) -> Result<Cursor, Refusal>
    requires { (Position t.now at.position at.line at.rows) × (depth ≤ 32) × (n ≤ most_cells + 1) }
    ensures { (k : ℕ) → Given (times n (deep depth)) (Rows t.now at.rows cells.old cells.new) t.now at.position at.line
        at.rows k result }
{
    let mut behind = at;
    for _ in 0..n {
        behind = read_deep(t, behind, depth, cells)?;
    }
    Ok(behind)
}

// An expression at most `depth` deep.
#[cycle(read_deep_read_times)]
fn read_deep(
    t: &[u8],
    at: Cursor,
    depth: u32,
    cells: &mut [u32; TABLE_SIZE],
) -> Result<Cursor, Refusal>
    requires { (Position t.now at.position at.line at.rows) × (depth ≤ 32) }
    ensures { (k : ℕ) → Given (deep depth) (λ c' e. Rows t.now at.rows cells.old cells.new c'
        (cons e nil)) t.now at.position at.line at.rows k result }
{
    let f = text::fields(t, at.position);
    let Some(h) = head(t, at.position, f) else {
        return Err(Reason::WrongRecord.at(at.line));
    };
    if STATEMENT_ROWS <= at.rows {
        return Err(Reason::LimitPassed.at(at.line));
    }
    if depth == 0 {
        return Err(Reason::LimitPassed.at(at.line));
    }
    let operands = Cursor {
        rows: at.rows + 1,
        ..at.behind(f.next)
    };
    if h.operands == 0 {
        put_row(cells, at.rows, at.line, 1, h);
        return Ok(operands);
    }
    let behind = read_times(t, operands, depth - 1, h.operands, cells)?;
    match h.kind {
        Kind::Is => read_is(t, behind, at.rows, at.line, cells),
        _ => {
            put_row(cells, at.rows, at.line, behind.rows - at.rows, h);
            Ok(behind)
        }
    }
}

// n expressions in a row. Where they are refused the rows from this one on mean nothing.
pub fn read_expressions(
    t: &[u8],
    at: Cursor,
    n: u32,
    cells: &mut [u32; TABLE_SIZE],
) -> Result<Cursor, Refusal>
    requires position { Position t.now at.position at.line at.rows }
    requires room { n ≤ most_cells + 1 }
    ensures { (k : ℕ) → Given (times n expression) (Rows t.now at.rows cells.old cells.new) t.now at.position at.line
        at.rows k result }
{
    read_times(t, at, DEPTH, n, cells)
}
