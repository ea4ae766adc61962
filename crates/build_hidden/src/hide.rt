// The columns that visited rows call for, passed on hidden behind the child's own.
ghost use Rattle.build_hidden.specs.Terms.{Passable};
ghost use Rattle.build_hidden.specs.Hide.{RowsHidden};

use super::lacking::to_hide;
use ast::Expressions;
use ast::row::line;
use numbers::refusals::{Reason, Refusal};
use scope::view::View;
use scope::{COLUMNS, Scope};

// One row after the other, until the child is full.
pub fn hide_rows(
    exprs: &Expressions,
    rows: &[usize],
    parent: &View,
    child: Scope,
    positions: &mut [u32],
) -> Result<Scope, Refusal>
    requires { Passable exprs.now.table.now parent.now.labels.now parent.now.matches.now parent.now.tables.now child
        positions.old }
    ensures { RowsHidden exprs.now.texts.catalog.now exprs.now.texts.statement.now exprs.now.table.now
        parent.now.labels.now parent.now.matches.now parent.now.tables.now
        rows.now child positions.old positions.new result }
{
    let mut scope = child;
    for &r in rows {
        let wanted = to_hide(exprs, r, parent, &scope.view());
        let Some(j) = wanted else {
            continue;
        };
        if COLUMNS <= scope.width as usize {
            return Err(Reason::LimitPassed.at(line(exprs.table, r)));
        }
        positions[scope.hidden as usize] = j;
        scope = scope.add_hidden(exprs, parent.labels[j as usize], parent.matches[j as usize]);
    }
    Ok(scope)
}
