// One aggregate function and its argument (planner.rs, build_aggregate_function).
ghost use Rattle.std.specs.Prelude.{◌≡◌, ◌*◌};
ghost use Rattle.rules.specs.Lists.{Bytes};
ghost use Rattle.rules.specs.Ast.{size};
ghost use Rattle.ast.specs.Table.{tree_at};
ghost use Rattle.ast.specs.Expressions.{tree_in};
ghost use Rattle.numbers.specs.Aggregates.{aggregate_of};
ghost use Rattle.plan.specs.Cells.{Room};
ghost use Rattle.build_aggregate.specs.Functions.{Calls, starred, OperandBuilds, FunctionBuilds};

use ast::row::Kind;
use ast::{Expressions, row, walk};
use build_expression::build_expression;
use numbers::aggregates::Aggregate;
use numbers::literals::{Literal, LiteralKind};
use numbers::refusals::{Reason, Refusal};
use plan::cells;
use scope::view::View;

// What `count(*)` counts: the constant true.
const TRUE: Literal = Literal {
    kind: LiteralKind::Bool,
    first: 1,
    second: 0,
};

// Whether the record at row r is a star, and the aggregate takes one.
fn takes_star(table: &[u32], r: usize, aggregate: Aggregate) -> bool
    ensures { (c q : Bytes) → result ≡ starred (aggregate_of aggregate) (tree_at c q table.now r) }
{
    aggregate == Aggregate::Count && row::kind_of(table, r) == Kind::Star
}

// The argument at row r: the constant true for the star of `count`.
fn argument(
    exprs: &Expressions,
    r: usize,
    scope: &View,
    aggregate: Aggregate,
    area: &mut [u32],
    n: u32,
) -> Result<u32, Refusal>
    requires { Room n (3 * size (tree_in exprs.now r)) area.old }
    ensures { OperandBuilds exprs.now.texts.catalog.now exprs.now.texts.statement.now exprs.now.table.now
        scope.now.labels.now scope.now.matches.now scope.now.tables.now
        (aggregate_of aggregate) r n area.old area.new result }
{
    if takes_star(exprs.table, r, aggregate) {
        cells::constant(&exprs.texts, area, n, TRUE);
        return Ok(n + 1);
    }
    build_expression(exprs, r, scope, area, n)
}

// The argument of the aggregate that the record at row r calls: refused where it has not one argument, then where an
// aggregate stands in it.
pub fn build_function(
    exprs: &Expressions,
    r: usize,
    scope: &View,
    aggregate: Aggregate,
    area: &mut [u32],
    n: u32,
) -> Result<u32, Refusal>
    requires calls { Calls exprs.now.texts.catalog.now exprs.now.texts.statement.now exprs.now.table.now r
        (aggregate_of aggregate) }
    requires room { Room n (3 * size (tree_in exprs.now r)) area.old }
    ensures { FunctionBuilds exprs.now.texts.catalog.now exprs.now.texts.statement.now exprs.now.table.now
        scope.now.labels.now scope.now.matches.now scope.now.tables.now
        r n area.old area.new result }
{
    if row::arguments(exprs.table, r) != 1 {
        return Err(Reason::ArgumentCount.at(row::line(exprs.table, r)));
    }
    let a = r + 1;
    if walk::contains(exprs, a) {
        return Err(Reason::NestedAggregate.at(row::line(exprs.table, r)));
    }
    argument(exprs, a, scope, aggregate, area, n)
}
