// The hidden columns of a SELECT (planner.rs, build_select_hidden): what HAVING and ORDER BY call for and the items lack.
#![tactic(auto)]

mod walk; // walk.rt: the rows that a walk visits
mod later; // later.rt: those of HAVING and ORDER BY
mod lacking; // lacking.rt: the column that a row calls for
mod hide; // hide.rt: the columns of all rows

ghost use Rattle.build_hidden.specs.Terms.{Hideable, HiddenBuilt};

use ast::Expressions;
use ast::buffer::Rows;
use ast::rows::STATEMENT_ROWS;
use hide::hide_rows;
use later::later_rows;
use numbers::refusals::Refusal;
use scope::Scope;
use scope::view::View;

// The child with the columns of the parent that are passed on hidden to it. The parent's position
// of each goes into `positions`. Refused where the child is full, at the line of the record that calls for one more.
pub fn build_select_hidden(
    exprs: &Expressions,
    parts: &[u32],
    parent: &View,
    child: Scope,
    positions: &mut [u32],
) -> Result<Scope, Refusal>
    requires { Hideable exprs.now.texts.catalog.now exprs.now.texts.statement.now exprs.now.table.now parts.now
        parent.now.labels.now parent.now.matches.now
        parent.now.tables.now child positions.old }
    ensures { HiddenBuilt exprs.now.texts.catalog.now exprs.now.texts.statement.now exprs.now.table.now
        parts.now parent.now.labels.now parent.now.matches.now
        parent.now.tables.now child positions.old positions.new result }
{
    let mut room = [0usize; STATEMENT_ROWS as usize];
    let mut rows = Rows::new(&mut room);
    later_rows(exprs.table, parts, &mut rows);
    hide_rows(exprs, rows.listed(), parent, child, positions)
}
