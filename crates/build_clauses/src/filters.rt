// WHERE and HAVING: a filter behind the node before it.
ghost use Rattle.std.specs.Prelude.{◌*◌};
ghost use Rattle.rules.specs.Ast.{size};
ghost use Rattle.rules.specs.Sizes.{clause_size};
ghost use Rattle.ast.specs.Expressions.{tree_in};
ghost use Rattle.statement.specs.EntryAccess.{clause_of};
ghost use Rattle.plan.specs.Layout.{filter_size};
ghost use Rattle.plan.specs.Cells.{Room};
ghost use Rattle.build_clauses.specs.Follows.{Follows};
ghost use Rattle.build_clauses.specs.Filters.{Filtered, WhereBuilt, HavingBuilt};

use ast::Expressions;
use build_expression::build_expression;
use numbers::refusals::{Reason, Refusal};
use plan::nodes::{Nodes, filter};
use plan::steps::Step;
use scope::view::View;
use statement::access::Clause;

// The rows for which the expression at row r holds.
fn build_filter(
    exprs: &Expressions,
    r: usize,
    scope: &View,
    area: &mut [u32],
    nodes: &mut Nodes,
    at: Step,
) -> Result<Step, Refusal>
    requires room { Room at.cell (3 * size (tree_in exprs.now r)) area.old }
    requires follows { Follows filter_size at.node nodes.old }
    ensures { Filtered exprs.now.texts.catalog.now exprs.now.texts.statement.now exprs.now.table.now
        scope.now.labels.now scope.now.matches.now scope.now.tables.now
        r at.cell at.node area.old nodes.old area.new nodes.new result }
{
    let cell = build_expression(exprs, r, scope, area, at.cell)?;
    filter(nodes, at.node - 1, cell - 1);
    Ok(at.next(cell))
}

// WHERE over FROM's scope.
pub fn build_where(
    exprs: &Expressions,
    clause: Option<Clause>,
    scope: &View,
    area: &mut [u32],
    nodes: &mut Nodes,
    at: Step,
) -> Result<Step, Refusal>
    requires room { Room at.cell (3 * clause_size (clause_of exprs.now.texts.catalog.now exprs.now.texts.statement.now
        exprs.now.table.now clause)) area.old }
    requires follows { Follows filter_size at.node nodes.old }
    ensures { WhereBuilt exprs.now.texts.catalog.now exprs.now.texts.statement.now exprs.now.table.now clause
        scope.now.labels.now scope.now.matches.now scope.now.tables.now
        at.cell at.node area.old nodes.old area.new nodes.new result }
{
    let Some(clause) = clause else {
        return Ok(at);
    };
    build_filter(exprs, clause.row, scope, area, nodes, at)
}

// HAVING, which wants a group or an aggregate. (A function for both clauses would be given HAVING's test as a flag, to save `let else`
// and the last line.)
pub fn build_having(
    exprs: &Expressions,
    clause: Option<Clause>,
    scope: &View,
    area: &mut [u32],
    nodes: &mut Nodes,
    at: Step,
) -> Result<Step, Refusal>
    requires room { Room at.cell (3 * clause_size (clause_of exprs.now.texts.catalog.now exprs.now.texts.statement.now
        exprs.now.table.now clause)) area.old }
    requires follows { Follows filter_size at.node nodes.old }
    ensures { HavingBuilt exprs.now.texts.catalog.now exprs.now.texts.statement.now exprs.now.table.now clause
        scope.now.labels.now scope.now.matches.now scope.now.tables.now
        at.cell at.node area.old nodes.old area.new nodes.new result }
{
    let Some(clause) = clause else {
        return Ok(at);
    };
    if !scope.is_matched() {
        return Err(Reason::HavingWithoutAggregate.at(clause.line));
    }
    build_filter(exprs, clause.row, scope, area, nodes, at)
}
