// FROM: the trees of tables and joins, read by a loop over an explicit stack of the joins that are open.
#![tactic(auto)]

mod record;
pub mod roots;
pub mod row;

ghost use Rattle.std.specs.Prelude.{◌≡◌, true, false, List, [], ◌∷◌, ℕ, ◌+◌, ◌*◌, ◌^◌, ◌≤◌, ◌<◌, length};
ghost use Rattle.std.proofs.lemmas.List.Edits.{sets};
ghost use Rattle.rules.specs.Limits.{most_from_tables};
ghost use Rattle.rules.specs.Reader.{optional};
ghost use Rattle.rules.specs.ReadExpression.{expression};
ghost use Rattle.ast.specs.Table.{row_size};
ghost use Rattle.read_expression.specs.Reading.{Position, Given};
ghost use Rattle.from.specs.Numbers.{number_of};
ghost use Rattle.from.specs.Records.{alias_first, alias_second};
ghost use Rattle.from.specs.Terms.{FromsRead};
ghost use Rattle.rules.specs.Area.{option_number};
ghost use Rattle.numbers.specs.Options.{option_of};
ghost use Rattle.from.specs.Trees.{Closed, TableAdded, TreeReady, TreeRead};
ghost use Rattle.from.specs.Stack.{Pushed, Popped};
ghost use Rattle.from.specs.Turns.{TreeBegun, RowsBegun, TurnFrom};

use self::record::{Said, from_record, from_stands};
use self::roots::sides;
use self::row::Kind;
use ast::rows::{ROW_SIZE, TABLE_SIZE};
use numbers::refusals::{Reason, Refusal};
use numbers::{options, put};
use read_expression::reading::{Cursor, read_expressions};
use text::places::Place;

// How many numbers the rows of FROM take: 31 of eight.
pub const FROM_NUMBERS: usize = 248;

// Most tables in FROM.
const MOST_TABLES: u32 = 16;

// Most joins that are open at once: the record of each has at least thirteen bytes.
const MOST_OPEN: usize = 5041;

// Most of them where the rest of the text has fewer than SHORT_REST bytes, which is 13 * 65.
const FEW_OPEN: usize = 64;

const SHORT_REST: usize = 845;

// Where reading FROM stands: in the text, and how many tables and FROM rows there are so far.
#[derive(Clone, Copy, Debug, PartialEq, Eq)]
pub struct Froms {
    pub at: Cursor,
    pub tables: u32,
    pub rows: u32,
}

// A join that is open: its line, its kind, whether a predicate follows, and whether its left side is read.
#[derive(Clone, Copy, Debug, PartialEq, Eq)]
struct Open {
    line: u32,
    kind: Kind,
    on: bool,
    left_read: bool,
}

// What the stack holds behind the joins that are open; it means nothing.
const UNUSED: Open = Open {
    line: 0,
    kind: Kind::Table,
    on: false,
    left_read: false,
};

// A lent slice, and how many joins are open: they stand in it, the innermost last. (The kit's ArrayVec fills its array when it is made, so
// that both lengths would stay, and has its length in its type, so that each function that takes a turn would stand twice in the library.)
#[derive(Drop)]
struct OpenJoins<'s> {
    joins: &'s mut [Open],
    count: usize,
}

impl<'s> OpenJoins<'s> {
    fn push(&mut self, join: Open)
        requires { self.old.count < length self.old.joins.now }
        ensures { Pushed join self.old self.new }
    {
        self.joins[self.count] = join;
        self.count += 1;
    }

    // The innermost one, which is then no longer open.
    #[tactic(auto, unfolding(crate::specs::Stack::Popped))]
    fn pop(&mut self) -> Option<Open>
        requires { self.old.count ≤ length self.old.joins.now }
        ensures { Popped self.old self.new result }
    {
        if self.count == 0 {
            return None;
        }
        self.count -= 1;
        Some(self.joins[self.count])
    }
}

// Where reading a tree stands, and whether a side was read, after which a join is closed or goes on.
#[derive(Clone, Copy, Debug, PartialEq, Eq)]
struct Stand {
    froms: Froms,
    done: bool,
}

// A table in row n.
fn put_table(rows: &mut [u32; FROM_NUMBERS], n: u32, line: u32, name: Place, alias: Option<Place>)
    requires { n ≤ 30 }
    ensures { rows.new ≡ sets rows.old (row_size * n) (1 ∷ line ∷ 0 ∷ name.address ∷ name.length ∷ alias_first alias ∷
        alias_second alias ∷ 0 ∷ []) }
{
    let i = ROW_SIZE * n as usize;
    let (address, length) = Place::numbers(alias);
    let kind = u32::from(Kind::Table);
    put(
        rows,
        i,
        [kind, line, 0, name.address, name.length, address, length, 0],
    );
}

// One table more, whose record stands here and ends at `next`.
#[tactic(auto, unfolding(crate::specs::Trees::TableAdded))]
fn add_table(
    froms: Froms,
    next: usize,
    name: Place,
    alias: Option<Place>,
    rows: &mut [u32; FROM_NUMBERS],
) -> Result<Froms, Refusal>
    requires line_fits { froms.at.line + 1 < 2 ^ 32 }
    requires row_room { froms.tables < most_from_tables → froms.rows ≤ 30 }
    ensures { TableAdded froms next name alias rows.old rows.new result }
{
    let at = froms.at;
    if MOST_TABLES <= froms.tables {
        return Err(Reason::LimitPassed.at(at.line));
    }
    put_table(rows, froms.rows, at.line, name, alias);
    Ok(Froms {
        at: at.behind(next),
        tables: froms.tables + 1,
        rows: froms.rows + 1,
    })
}

// A join in row n: its line and kind, its predicate's row if it has one, and how many rows its sides have.
fn put_join(rows: &mut [u32; FROM_NUMBERS], n: u32, join: Open, predicate: Option<u32>, sides: u32)
    requires row_room { n ≤ 30 }
    requires predicate_fits { option_number (option_of predicate) < 2 ^ 32 }
    ensures { rows.new ≡ sets rows.old (row_size * n) (number_of join.kind ∷ join.line ∷ option_number (option_of predicate) ∷ 0 ∷ 0 ∷ 0 ∷ 0 ∷
        sides ∷ []) }
{
    let i = ROW_SIZE * n as usize;
    let root = options::number_of(predicate);
    put(
        rows,
        i,
        [u32::from(join.kind), join.line, root, 0, 0, 0, 0, sides],
    );
}

// The predicate of an open join, if it has one, and its row.
#[tactic(auto, unfolding(rules::specs::Area::option_number))]
fn close_join(
    t: &[u8],
    at: Cursor,
    n: u32,
    join: Open,
    cells: &mut [u32; TABLE_SIZE],
    rows: &mut [u32; FROM_NUMBERS],
) -> Result<Cursor, Refusal>
    requires position { Position t.now at.position at.line at.rows }
    requires row_room { n ≤ 30 }
    ensures { (k : ℕ) → Given (optional join.on expression)
        (Closed t.now at.rows n join cells.old cells.new rows.old rows.new) t.now at.position at.line at.rows k result }
{
    let s = sides(rows, n);
    if join.on {
        let end = read_expressions(t, at, 1, cells)?;
        put_join(rows, n, join, Some(at.rows), s);
        return Ok(end);
    }
    put_join(rows, n, join, None, s);
    Ok(at)
}

// The record of a side that is to be read: a join more is open, or a table is read.
fn next_side(
    t: &[u8],
    s: Stand,
    stack: &mut OpenJoins,
    rows: &mut [u32; FROM_NUMBERS],
) -> Result<Option<Stand>, Refusal>
    requires begun { RowsBegun t.now s stack.old rows.old }
    requires side_ahead { s.done ≡ false }
    ensures { (cells : List ℕ) → TurnFrom t.now s stack.old stack.new cells cells rows.old rows.new result }
{
    let at = s.froms.at;
    let Some(h) = from_record(t, at.position) else {
        return Err(Reason::WrongRecord.at(at.line));
    };
    match h.said {
        Said::Table(name, alias) => {
            let froms = add_table(s.froms, h.next, name, alias, rows)?;
            Ok(Some(Stand { froms, done: true }))
        }
        Said::Join(kind, on) => {
            stack.push(Open {
                line: at.line,
                kind,
                on,
                left_read: false,
            });
            Ok(Some(Stand {
                froms: Froms {
                    at: at.behind(h.next),
                    ..s.froms
                },
                done: false,
            }))
        }
    }
}

// Behind a side that was read: the right one follows, or the join is closed, or the tree has ended.
fn end_side(
    t: &[u8],
    s: Stand,
    stack: &mut OpenJoins,
    cells: &mut [u32; TABLE_SIZE],
    rows: &mut [u32; FROM_NUMBERS],
) -> Result<Option<Stand>, Refusal>
    requires begun { TreeBegun t.now s stack.old cells.old rows.old }
    requires side_read { s.done ≡ true }
    ensures { TurnFrom t.now s stack.old stack.new cells.old cells.new rows.old rows.new result }
{
    let Some(join) = stack.pop() else {
        return Ok(None);
    };
    if join.left_read {
        let at = close_join(t, s.froms.at, s.froms.rows, join, cells, rows)?;
        return Ok(Some(Stand {
            froms: Froms {
                at,
                rows: s.froms.rows + 1,
                ..s.froms
            },
            done: true,
        }));
    }
    stack.push(Open {
        left_read: true,
        ..join
    });
    Ok(Some(Stand { done: false, ..s }))
}

// One record, or the end of a side; none where the tree has ended.
fn take_turn(
    t: &[u8],
    s: Stand,
    stack: &mut OpenJoins,
    cells: &mut [u32; TABLE_SIZE],
    rows: &mut [u32; FROM_NUMBERS],
) -> Result<Option<Stand>, Refusal>
    requires { TreeBegun t.now s stack.old cells.old rows.old }
    ensures { TurnFrom t.now s stack.old stack.new cells.old cells.new rows.old rows.new result }
{
    let done = s.done;
    if done {
        return end_side(t, s, stack, cells, rows);
    }
    next_side(t, s, stack, rows)
}

// The tree that stands here, by a stack of the joins that are open, the innermost last.
fn read_joins(
    t: &[u8],
    froms: Froms,
    room: &mut [Open],
    cells: &mut [u32; TABLE_SIZE],
    rows: &mut [u32; FROM_NUMBERS],
) -> Result<Froms, Refusal>
    requires ready { TreeReady t.now froms.at.position froms.at.line froms.at.rows froms.tables froms.rows }
    requires stack_room { length t.now < froms.at.position + 13 * length room.old + 13 }
    ensures { TreeRead t.now froms.at.position froms.at.line froms.at.rows froms.tables froms.rows cells.old cells.new
        rows.old rows.new result }
{
    let mut stack = OpenJoins {
        joins: room,
        count: 0,
    };
    let mut s = Stand { froms, done: false };
    while let Some(x) = take_turn(t, s, &mut stack, cells, rows)? {
        s = x;
    }
    Ok(s.froms)
}

// The same, with a stack of its own, long enough for the rest of the text.
fn read_joined(
    t: &[u8],
    froms: Froms,
    cells: &mut [u32; TABLE_SIZE],
    rows: &mut [u32; FROM_NUMBERS],
) -> Result<Froms, Refusal>
    requires { TreeReady t.now froms.at.position froms.at.line froms.at.rows froms.tables froms.rows }
    ensures { TreeRead t.now froms.at.position froms.at.line froms.at.rows froms.tables froms.rows cells.old cells.new
        rows.old rows.new result }
{
    if t.len() - froms.at.position < SHORT_REST {
        let mut few = [UNUSED; FEW_OPEN];
        return read_joins(t, froms, &mut few, cells, rows);
    }
    let mut stack = [UNUSED; MOST_OPEN];
    read_joins(t, froms, &mut stack, cells, rows)
}

// The tree that stands here, behind so many tables and rows.
fn read_tree(
    t: &[u8],
    froms: Froms,
    cells: &mut [u32; TABLE_SIZE],
    rows: &mut [u32; FROM_NUMBERS],
) -> Result<Froms, Refusal>
    requires { TreeReady t.now froms.at.position froms.at.line froms.at.rows froms.tables froms.rows }
    ensures { TreeRead t.now froms.at.position froms.at.line froms.at.rows froms.tables froms.rows cells.old cells.new
        rows.old rows.new result }
{
    let at = froms.at;
    let Some(h) = from_record(t, at.position) else {
        return Err(Reason::WrongRecord.at(at.line));
    };
    let Said::Table(name, alias) = h.said else {
        return read_joined(t, froms, cells, rows);
    };
    add_table(froms, h.next, name, alias, rows)
}

// The FROM items that stand here.
pub fn read_froms(
    t: &[u8],
    at: Cursor,
    cells: &mut [u32; TABLE_SIZE],
    rows: &mut [u32; FROM_NUMBERS],
) -> Result<Froms, Refusal>
    requires { Position t.now at.position at.line at.rows }
    ensures { FromsRead t.now at.position at.line at.rows cells.old cells.new rows.new result }
{
    let mut froms = Froms {
        at,
        tables: 0,
        rows: 0,
    };
    while from_stands(t, froms.at.position) {
        froms = read_tree(t, froms, cells, rows)?;
    }
    Ok(froms)
}
