// The columns that a star stands for: FROM's, by the names of their labels, in the rows behind the statement's.
ghost use Rattle.std.specs.Prelude.{◌≡◌, ◌+◌, ◌≤◌, length};
ghost use Rattle.ast.specs.Table.{starred_rows};
ghost use Rattle.build_projection.specs.Stars.{table_of, with_column, with_columns};

use numbers::number;
use read_expression::starred::put_starred;
use scope::labels::{place, slot};

// The name of the table that a label's column comes from.
fn table_of(tables: &[u32], x: u32) -> u32
    ensures { result ≡ table_of tables.now x }
{
    let k = slot(x);
    if k == 0 {
        return 0;
    }
    number(tables, k as usize - 1)
}

// Starred column k, of the label x.
fn put_column(cells: &mut [u32], tables: &[u32], k: u32, line: u32, x: u32)
    ensures { cells.new ≡ with_column cells.old tables.now k line x }
{
    let t = table_of(tables, x);
    put_starred(cells, k, line, place(t), place(x));
}

// The starred columns from k on: all labels.
pub fn put_columns(cells: &mut [u32], tables: &[u32], labels: &[u32], k: u32, line: u32)
    requires { k + length labels.now ≤ starred_rows }
    ensures { cells.new ≡ with_columns cells.old tables.now k line labels.now }
{
    for (i, &x) in labels.iter().enumerate() {
        put_column(cells, tables, k + i as u32, line, x);
    }
}
