// Constant expressions worked out over the statement's table (expression.rs, evaluate).
#![tactic(auto)]

pub mod constants;
pub mod operators;
pub mod planned;

ghost use Rattle.std.specs.Prelude.{◌≡◌, ℕ, suc, ◌+◌, Ok};
ghost use Rattle.rules.specs.Lists.{Bytes};
ghost use Rattle.rules.specs.Ast as ast;
ghost use Rattle.rules.specs.Evaluate.{evaluate};
ghost use Rattle.value.specs.Values.{held};
ghost use Rattle.ast.specs.Table.{rows_at, tree_by};
ghost use Rattle.ast.specs.Expressions.{tree_in};
ghost use Rattle.ast.specs.Operands.{kind_at, operands_at};
ghost use Rattle.expression.specs.Answers.{map_answer, answer_of, Evaluates, constant_of};

use ast::row::{Kind, kind_of};
use ast::{Expressions, row, rows};
use numbers::literals::Literal;
use numbers::refusals::{Reason, Refusal};
use value::{Value, arithmetic, literals};

// The value of a constant: a bare literal, its bits kept; or a value worked out.
#[derive(Clone, Copy, Debug, PartialEq)]
pub enum Constant {
    Literal(Literal),
    Value(Value),
}

// A record with no operand.
fn leaf(table: &[u32], r: usize) -> Result<Value, Refusal>
    requires { operands_at table.now r ≡ 0 }
    ensures { (f : ℕ → ast.Expr) (c q : Bytes) → Evaluates c q result (tree_by f c q table.now r) }
{
    let line = row::line(table, r);
    match kind_of(table, r) {
        Kind::Column | Kind::Qualified => Err(Reason::ConstantOnly.at(line)),
        Kind::Call => Err(Reason::UnknownFunction.at(line)),
        Kind::Literal => Ok(literals::literal(row::literal(table, r))),
        _ => Err(Reason::UnsupportedStar.at(line)),
    }
}

// A record whose first operand has the value a, and which is no binary operator: a call, a unary operator or `is`.
fn first_operand(table: &[u32], r: usize, a: Value) -> Result<Value, Refusal>
    requires has_operands { operands_at table.now r ≡ 0 → ⊥ }
    requires not_binary { kind_at table.now r ≡ 6 → ⊥ }
    ensures { (f : ℕ → ast.Expr) (c q : Bytes) → Evaluates c q (Ok a) (f (suc r))
        → Evaluates c q result (tree_by f c q table.now r) }
{
    let line = row::line(table, r);
    match kind_of(table, r) {
        Kind::Unary => {
            let operator = row::unary_operator(table, r);
            operators::worked_at(value::operators::unary(operator, a), line)
        }
        Kind::Is => operators::is(row::literal(table, r), a, line),
        _ => operators::worked_at(arithmetic::sqrt(a), line),
    }
}

// A binary operator whose operands have the values a and b.
fn both_operands(exprs: &Expressions, r: usize, a: Value, b: Value) -> Result<Value, Refusal>
    requires { kind_at exprs.now.table.now r ≡ 6 }
    ensures { (f : ℕ → ast.Expr) → Evaluates exprs.now.texts.catalog.now exprs.now.texts.statement.now (Ok a) (f (suc r))
        → Evaluates exprs.now.texts.catalog.now exprs.now.texts.statement.now (Ok b) (f (suc r + rows_at exprs.now.table.now
        (suc r))) → Evaluates exprs.now.texts.catalog.now exprs.now.texts.statement.now result
        (tree_by f exprs.now.texts.catalog.now exprs.now.texts.statement.now exprs.now.table.now r) }
{
    let operator = row::binary_operator(exprs.table, r);
    let w = value::operators::binary(&exprs.texts, operator, a, b);
    operators::worked_at(w, row::line(exprs.table, r))
}

// The value of the tree at a row: both operands are worked out, the left one first.
pub fn evaluate(exprs: &Expressions, r: usize) -> Result<Value, Refusal>
    ensures { answer_of exprs.now.texts.catalog.now exprs.now.texts.statement.now result
        ≡ map_answer held (evaluate (tree_in exprs.now r)) }
{
    if rows::operands(exprs.table, r) == 0 {
        return leaf(exprs.table, r);
    }
    let left = r + 1;
    let right = rows::next(exprs.table, left);
    let a = evaluate(exprs, left)?;
    if kind_of(exprs.table, r) != Kind::Binary {
        return first_operand(exprs.table, r, a);
    }
    let b = evaluate(exprs, right)?;
    both_operands(exprs, r, a, b)
}

// The value of a constant: a bare literal keeps its bits, a NaN's too.
pub fn evaluate_constant(exprs: &Expressions, r: usize) -> Result<Constant, Refusal>
    ensures { constant_of exprs.now.texts.catalog.now exprs.now.texts.statement.now result ≡ evaluate (tree_in exprs.now r) }
{
    if kind_of(exprs.table, r) == Kind::Literal {
        return Ok(Constant::Literal(row::literal(exprs.table, r)));
    }
    evaluate(exprs, r).map(Constant::Value)
}
