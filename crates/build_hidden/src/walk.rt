// The walk for hidden columns over the table (ast.rs, walk). Its visitor always answers true, so which records are
// visited does not depend on what is hidden.
ghost use Rattle.build_hidden.specs.Rows.{RowsFit, RowsVisited};

use ast::buffer::Rows;
use ast::row::{Kind, kind_of};
use ast::rows::{next, operands};

// The rows visited from row r on, behind others; the walk's answer. An operator's operands are walked until one walk answers
// false, a function's arguments until one answers true.
pub fn visit_rows(table: &[u32], r: usize, rows: &mut Rows) -> bool
    requires { RowsFit table.now r rows.old }
    ensures { RowsVisited table.now r rows.old rows.new result }
{
    rows.push(r);
    let any = kind_of(table, r) == Kind::Call;
    let left = operands(table, r);
    if left == 0 {
        return !any;
    }
    let mut p = r + 1;
    for _ in 0..left {
        let answer = visit_rows(table, p, rows);
        if answer == any {
            return any;
        }
        p = next(table, p);
    }
    !any
}
