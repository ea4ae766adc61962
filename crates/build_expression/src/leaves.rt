// What is built of a record before its operands: a match, a column, a literal, or a refusal.
ghost use Rattle.std.specs.Prelude.{◌≡◌, List, ℕ, Ok};
ghost use Rattle.rules.specs.Ast as ast;
ghost use Rattle.rules.specs.Scope as rules;
ghost use Rattle.ast.specs.Operands.{kind_at};
ghost use Rattle.ast.specs.Row.{line_at, row_name, row_literal};
ghost use Rattle.scope.specs.Scopes.{scope_from};
ghost use Rattle.scope.specs.Lookup.{qualifier_of};
ghost use Rattle.plan.specs.Cells.{Room};
ghost use Rattle.plan.specs.Emits.{Emits};
ghost use Rattle.build_expression.specs.Rows.{column_step, literal_step};
ghost use Rattle.build_expression.specs.Builds.{Builds, Unmatched, Begins};

use crate::position::position_of;
use crate::{Begun, Operator};
use ast::row::Kind;
use ast::walk::is_root_call;
use ast::{Expressions, row};
use numbers::operators::Unary;
use numbers::refusals::{Reason, Refusal};
use plan::cells;
use scope::view::View;
use text::places::Place;

// The column record at row r, under a qualifier.
fn column(
    exprs: &Expressions,
    r: usize,
    scope: &View,
    qualifier: Option<Place>,
    area: &mut [u32],
    n: u32,
) -> Result<u32, Refusal>
    requires { Room n 1 area.old }
    ensures { (e : ℕ → ast.Expr) (h : ℕ) → Emits
        (column_step n (line_at exprs.now.table.now r) (rules.lookup
        (scope_from e exprs.now.texts.catalog.now exprs.now.texts.statement.now
        scope.now.labels.now scope.now.matches.now scope.now.tables.now h)
        (qualifier_of exprs.now.texts.catalog.now exprs.now.texts.statement.now qualifier)
        (row_name exprs.now.texts.catalog.now exprs.now.texts.statement.now exprs.now.table.now r)))
        n area.old area.new result }
{
    let found = scope.lookup(&exprs.texts, qualifier, row::name(exprs.table, r));
    let i = position_of(found, row::line(exprs.table, r))?;
    cells::column(area, n, i);
    Ok(n + 1)
}

// A column record with a qualifier that is matched to no column.
pub fn qualified(
    exprs: &Expressions,
    r: usize,
    scope: &View,
    area: &mut [u32],
    n: u32,
) -> Result<u32, Refusal>
    requires room { Room n 1 area.old }
    requires qualified { kind_at exprs.now.table.now r ≡ 3 }
    requires unmatched { Unmatched exprs.now.texts.catalog.now exprs.now.texts.statement.now exprs.now.table.now
        scope.now.matches.now r }
    ensures { Builds exprs.now.texts.catalog.now exprs.now.texts.statement.now exprs.now.table.now
        scope.now.labels.now scope.now.matches.now scope.now.tables.now
        r n area.old area.new result }
{
    let qualifier = row::qualifier(exprs.table, r);
    column(exprs, r, scope, Some(qualifier), area, n)
}

// The literal record at row r.
fn literal(exprs: &Expressions, r: usize, area: &mut [u32], n: u32) -> u32
    requires { Room n 1 area.old }
    ensures { Emits
        (literal_step n (row_literal exprs.now.texts.catalog.now exprs.now.texts.statement.now exprs.now.table.now r))
        n area.old area.new (Ok result) }
{
    let literal = row::literal(exprs.table, r);
    cells::constant(&exprs.texts, area, n, literal);
    n + 1
}

// A call: refused for any but `sqrt` of one argument, before its arguments.
fn call(exprs: &Expressions, r: usize) -> Result<Begun, Refusal>
    requires { kind_at exprs.now.table.now r ≡ 4 }
    ensures { (xs ms ts area : List ℕ) (n : ℕ)
        → Unmatched exprs.now.texts.catalog.now exprs.now.texts.statement.now exprs.now.table.now ms r
        → Begins exprs.now.texts.catalog.now exprs.now.texts.statement.now exprs.now.table.now xs ms ts r n area area result }
{
    if is_root_call(exprs, r) {
        return Ok(Begun::Operands(Operator::Unary(Unary::SquareRoot)));
    }
    Err(Reason::UnknownFunction.at(row::line(exprs.table, r)))
}

// A record that is matched to no column.
fn unmatched(
    exprs: &Expressions,
    r: usize,
    scope: &View,
    area: &mut [u32],
    n: u32,
) -> Result<Begun, Refusal>
    requires room { Room n 1 area.old }
    requires unmatched { Unmatched exprs.now.texts.catalog.now exprs.now.texts.statement.now exprs.now.table.now
        scope.now.matches.now r }
    ensures { Begins exprs.now.texts.catalog.now exprs.now.texts.statement.now exprs.now.table.now
        scope.now.labels.now scope.now.matches.now scope.now.tables.now
        r n area.old area.new result }
{
    let kind = row::kind_of(exprs.table, r);
    match kind {
        Kind::Star => Err(Reason::UnsupportedStar.at(row::line(exprs.table, r))),
        Kind::Column => Ok(Begun::Whole(column(exprs, r, scope, None, area, n)?)),
        Kind::Qualified => Ok(Begun::Whole(qualified(exprs, r, scope, area, n)?)),
        Kind::Call => call(exprs, r),
        Kind::Unary => {
            let operator = row::unary_operator(exprs.table, r);
            Ok(Begun::Operands(Operator::Unary(operator)))
        }
        Kind::Binary => Ok(Begun::Operands(Operator::Binary)),
        Kind::Is => Ok(Begun::Operands(Operator::Is)),
        Kind::Literal => Ok(Begun::Whole(literal(exprs, r, area, n))),
    }
}

// A match comes first, and is one column.
pub fn begin(
    exprs: &Expressions,
    r: usize,
    scope: &View,
    area: &mut [u32],
    n: u32,
) -> Result<Begun, Refusal>
    requires { Room n 1 area.old }
    ensures { Begins exprs.now.texts.catalog.now exprs.now.texts.statement.now exprs.now.table.now
        scope.now.labels.now scope.now.matches.now scope.now.tables.now
        r n area.old area.new result }
{
    let matched = scope.lookup_aggregate(exprs, r);
    match matched {
        Some(i) => {
            cells::column(area, n, i);
            Ok(Begun::Whole(n + 1))
        }
        None => unmatched(exprs, r, scope, area, n),
    }
}
