// Expressions resolved over a scope and appended to the plan as cells (planner.rs, build_expression).
#![tactic(auto)]

mod leaves; // leaves.rt: what is built of a record before its operands
mod operators; // operators.rt: what is appended behind them
pub mod option; // option.rt: an expression that may be missing
pub mod position; // position.rt: a column that was looked up

ghost use Rattle.std.specs.Prelude.{◌*◌};
ghost use Rattle.rules.specs.Ast.{size};
ghost use Rattle.ast.specs.Expressions.{tree_in};
ghost use Rattle.plan.specs.Cells.{Room};
ghost use Rattle.build_expression.specs.Builds.{Builds};

use ast::row::{Kind, kind_of};
use ast::{Expressions, rows};
use numbers::operators::Unary;
use numbers::refusals::Refusal;
use scope::view::View;

// A record whose operands are to be built: a unary operator, `is`, or a binary operator.
#[derive(Clone, Copy, Debug, PartialEq, Eq)]
pub enum Operator {
    Unary(Unary),
    Is,
    Binary,
}

// What is built of a record before its operands: the whole, up to the next cell, or nothing yet.
#[derive(Clone, Copy, Debug, PartialEq, Eq)]
pub enum Begun {
    Whole(u32),
    Operands(Operator),
}

// The cells of the tree at row r from the n-th on: a match first, then the operands, the left one first.
fn build_tree(
    exprs: &Expressions,
    r: usize,
    scope: &View,
    area: &mut [u32],
    n: u32,
) -> Result<u32, Refusal>
    requires { Room n (3 * size (tree_in exprs.now r)) area.old }
    ensures { Builds exprs.now.texts.catalog.now exprs.now.texts.statement.now exprs.now.table.now
        scope.now.labels.now scope.now.matches.now scope.now.tables.now
        r n area.old area.new result }
{
    let begun = leaves::begin(exprs, r, scope, area, n)?;
    match begun {
        Begun::Whole(next) => Ok(next),
        Begun::Operands(operator) => {
            let left = r + 1;
            let m = build_tree(exprs, left, scope, area, n)?;
            match operator {
                Operator::Unary(unary) => Ok(operators::unary(area, m, unary)),
                Operator::Is => operators::is(exprs.table, r, area, m),
                Operator::Binary => {
                    let right = rows::next(exprs.table, left);
                    let k = build_tree(exprs, right, scope, area, m)?;
                    Ok(operators::binary(exprs.table, r, area, m, k))
                }
            }
        }
    }
}

// The same, where no match is looked for if nothing is matched.
pub fn build_expression(
    exprs: &Expressions,
    r: usize,
    scope: &View,
    area: &mut [u32],
    n: u32,
) -> Result<u32, Refusal>
    requires { Room n (3 * size (tree_in exprs.now r)) area.old }
    ensures { Builds exprs.now.texts.catalog.now exprs.now.texts.statement.now exprs.now.table.now
        scope.now.labels.now scope.now.matches.now scope.now.tables.now
        r n area.old area.new result }
{
    build_tree(exprs, r, &scope.used(), area, n)
}

// The same for an item of a projection: where there are no matches, a qualified column is looked up at once.
pub fn build_item(
    exprs: &Expressions,
    r: usize,
    scope: &View,
    area: &mut [u32],
    n: u32,
) -> Result<u32, Refusal>
    requires { Room n (3 * size (tree_in exprs.now r)) area.old }
    ensures { Builds exprs.now.texts.catalog.now exprs.now.texts.statement.now exprs.now.table.now
        scope.now.labels.now scope.now.matches.now scope.now.tables.now
        r n area.old area.new result }
{
    if scope.matches.is_empty() && kind_of(exprs.table, r) == Kind::Qualified {
        return leaves::qualified(exprs, r, scope, area, n);
    }
    build_tree(exprs, r, scope, area, n)
}
