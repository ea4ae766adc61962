// Constants (planner.rs, build_constant_value): built over the empty scope, then worked out. All refusals of building come
// first, and nothing of what is built is kept: a check gives the first of them.
ghost use Rattle.std.specs.Prelude.{◌≡◌, not, ℕ, suc};
ghost use Rattle.rules.specs.Lists.{Bytes};
ghost use Rattle.rules.specs.Refusals.{refuse_if, unknown_function, invalid_is};
ghost use Rattle.rules.specs.Ast as rule;
ghost use Rattle.rules.specs.BuildExpression.{is_null_or_nan, constant};
ghost use Rattle.ast.specs.Table.{at, arguments_at, tree_by};
ghost use Rattle.ast.specs.Expressions.{tree_in};
ghost use Rattle.numbers.specs.Values.{value_at};
ghost use Rattle.ast.specs.Operands.{operands_at};
ghost use Rattle.expression.specs.Answers.{constant_of};
ghost use Rattle.expression.specs.Constants.{checked_of, check, check_all};
ghost use Rattle.ast.specs.Called.{is_root_call};

use crate::{Constant, evaluate_constant};
use ast::row::{Kind, kind_of};
use ast::walk::is_root_call;
use ast::{Expressions, row, rows};
use numbers::refusals::{Reason, Refusal};

// `is` takes a null or a NaN.
fn check_is(table: &[u32], r: usize) -> Result<(), Refusal>
    ensures { (c q : Bytes) → checked_of result ≡ refuse_if (not (is_null_or_nan (value_at c q (at table.now r 3)
        (at table.now r 4) (at table.now r 5)))) invalid_is (at table.now r 1) }
{
    if row::literal(table, r).is_null_or_nan() {
        return Ok(());
    }
    Err(Reason::InvalidIs.at(row::line(table, r)))
}

// The one function is `sqrt`, of one argument.
fn check_call(exprs: &Expressions, r: usize) -> Result<(), Refusal>
    ensures { checked_of result ≡ refuse_if (not (is_root_call exprs.now.texts.catalog.now exprs.now.texts.statement.now
        exprs.now.table.now r)) unknown_function (at exprs.now.table.now r 1) }
{
    if is_root_call(exprs, r) {
        return Ok(());
    }
    Err(Reason::UnknownFunction.at(row::line(exprs.table, r)))
}

// A record, the first refusal of its operands given: an unknown function comes before that, an invalid `is` after it.
fn check_record(exprs: &Expressions, r: usize, operands: Result<(), Refusal>) -> Result<(), Refusal>
    ensures { (f : ℕ → rule.Expr) → checked_of operands ≡ check_all (arguments_at f exprs.now.table.now
        (operands_at exprs.now.table.now r) (suc r)) → checked_of result
        ≡ check (tree_by f exprs.now.texts.catalog.now exprs.now.texts.statement.now exprs.now.table.now r) }
{
    let line = row::line(exprs.table, r);
    match kind_of(exprs.table, r) {
        Kind::Column | Kind::Qualified => Err(Reason::ConstantOnly.at(line)),
        Kind::Call => check_call(exprs, r).and(operands),
        Kind::Unary | Kind::Binary => operands,
        Kind::Is => operands.and(check_is(exprs.table, r)),
        Kind::Literal => Ok(()),
        Kind::Star => Err(Reason::UnsupportedStar.at(line)),
    }
}

// The first refusal of building the tree at a row over the empty scope, its operands left to right.
pub fn check_constant(exprs: &Expressions, r: usize) -> Result<(), Refusal>
    ensures { checked_of result ≡ check (tree_in exprs.now r) }
{
    let count = rows::operands(exprs.table, r);
    if count == 0 {
        return check_record(exprs, r, Ok(()));
    }
    let mut p = r + 1;
    for _ in 0..count {
        let operand = check_constant(exprs, p);
        let Ok(()) = operand else {
            return check_record(exprs, r, operand);
        };
        p = rows::next(exprs.table, p);
    }
    check_record(exprs, r, Ok(()))
}

// The value of the tree at a row, or its first refusal: of building before any of working out.
pub fn build_constant_value(exprs: &Expressions, r: usize) -> Result<Constant, Refusal>
    ensures { constant_of exprs.now.texts.catalog.now exprs.now.texts.statement.now result ≡ constant (tree_in exprs.now r) }
{
    check_constant(exprs, r)?;
    evaluate_constant(exprs, r)
}
