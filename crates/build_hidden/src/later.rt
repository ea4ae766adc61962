// The rows that are visited for HAVING and ORDER BY, in turn.
ghost use Rattle.build_hidden.specs.Later.{KeysFit, KeysVisited, LaterFit, LaterVisited};

use super::walk::visit_rows;
use ast::buffer::Rows;
use entries::Section;
use sections::entry::{count, entry_at};
use statement::access::clause_at;

// Those of the order keys, behind others.
fn order_rows(cells: &[u32], parts: &[u32], rows: &mut Rows)
    requires { KeysFit cells.now parts.now rows.old }
    ensures { KeysVisited cells.now parts.now rows.old rows.new }
{
    let total = count(parts, Section::Order);
    for k in 0..total {
        let e = entry_at(parts, Section::Order, k);
        visit_rows(cells, e.expr_row(), rows);
    }
}

// All of them.
pub fn later_rows(cells: &[u32], parts: &[u32], rows: &mut Rows)
    requires { LaterFit cells.now parts.now rows.old }
    ensures { LaterVisited cells.now parts.now rows.old rows.new }
{
    if let Some(having) = clause_at(parts, Section::Having) {
        visit_rows(cells, having.row, rows);
    }
    order_rows(cells, parts, rows);
}
