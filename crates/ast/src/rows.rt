// The rows of the table: a record's numbers, its kind, its operands. A row's number is a usize: with it no sum overflows
// whatever the table holds, since a row outside the table has 0 rows.
ghost use Rattle.std.specs.Prelude.{◌≡◌, ◌+◌, ◌<◌};
ghost use Rattle.numbers.specs.Codes.{or_least};
ghost use Rattle.ast.specs.Table.{at, rows_at};
ghost use Rattle.ast.specs.Operands.{operands_at};

use crate::row::{Kind, kind_of};
use numbers::number;
use text::places::Place;

// Numbers a row.
pub const ROW_SIZE: usize = 8;

// Rows for the statement's expressions, and behind those for the columns that its stars stand for.
pub const STATEMENT_ROWS: u32 = 512;

pub const STARRED_ROWS: u32 = 256;

// Numbers of the whole table.
pub const TABLE_SIZE: usize = ROW_SIZE * (STATEMENT_ROWS as usize + STARRED_ROWS as usize);

// The number at place k of row r; 0 outside the table.
pub fn at(table: &[u32], r: usize, k: u32) -> u32
    ensures { result ≡ at table.now r k }
{
    // the rows of the table first: with what follows alone a row's four numbers take 1.6 times as long
    if r < table.len() / ROW_SIZE && k < 8 {
        return table[ROW_SIZE * r + k as usize];
    }
    if table.len() / ROW_SIZE < r {
        return 0;
    }
    number(table, ROW_SIZE * r + k as usize)
}

// k where it lies between least and most, else least.
#[tactic(auto, unfolding(numbers::specs::Codes::or_least))]
pub fn or_least(least: u32, most: u32, k: u32) -> u32
    ensures { result ≡ or_least least most k }
{
    if k < least || most < k {
        return least;
    }
    k
}

// The place whose address is the number at place k of row r, and its length the one behind that.
pub fn place_at(table: &[u32], r: usize, k: u32) -> Place
    requires { k < 8 }
    ensures { result ≡ record { address = at table.now r k; length = at table.now r (k + 1) } }
{
    Place {
        address: at(table, r, k),
        length: at(table, r, k + 1),
    }
}

// How many operands it has: the first stands at the next row, each other behind the rows of the one before.
pub fn operands(table: &[u32], r: usize) -> u32
    ensures { result ≡ operands_at table.now r }
{
    match kind_of(table, r) {
        Kind::Call => at(table, r, 3),
        Kind::Unary | Kind::Is => 1,
        Kind::Binary => 2,
        Kind::Star | Kind::Column | Kind::Qualified | Kind::Literal => 0,
    }
}

// The row behind the tree at a row.
pub fn next(table: &[u32], r: usize) -> usize
    ensures { result ≡ r + rows_at table.now r }
{
    r + at(table, r, 2) as usize
}
