// The columns that a SELECT's stars stand for: qualified columns in the rows behind the statement's.
ghost use Rattle.std.specs.Prelude.{◌≡◌};
ghost use Rattle.read_expression.specs.Starred.{with_starred};

use crate::heads::qualified_row;
use crate::reading::put_row;
use ast::rows::{STARRED_ROWS, STATEMENT_ROWS, TABLE_SIZE};
use text::places::Place;

// Starred column k: its star's line, its table's name and its own. Where the table has no such row nothing is written.
pub fn put_starred(cells: &mut [u32], k: u32, line: u32, table: Place, name: Place)
    ensures { cells.new ≡ with_starred cells.old k line table.address table.length name.address name.length }
{
    if STARRED_ROWS <= k {
        return;
    }
    let Some(cells) = cells.as_mut_array::<TABLE_SIZE>() else {
        return;
    };
    let h = qualified_row(table, name);
    put_row(cells, STATEMENT_ROWS + k, line, 1, h);
}
