// Comparisons and IS (expression.rs, evaluate).
#![tactic(auto, unfolding(crate::specs::Values::value_of, crate::specs::Values::worked_of, crate::specs::Operands::compared_of, crate::specs::Operands::order_of, numbers::specs::Reasons::reason_of, rules::specs::Comparison::compare, rules::specs::Comparison::compared, rules::specs::Operators::is_of, rules::specs::Operators::is_null, rules::specs::Operators::is_nan))]

ghost use Rattle.std.specs.Prelude.{◌≡◌, ℕ, Bool};
ghost use Rattle.rules.specs.Lists.{Bytes};
ghost use Rattle.rules.specs.Schema as rule;
ghost use Rattle.rules.specs.Ast as ast;
ghost use Rattle.rules.specs.Comparison as order;
ghost use Rattle.rules.specs.Comparison.{compared};
ghost use Rattle.rules.specs.Operators.{binary_of, is_of};
ghost use Rattle.value.specs.Values.{value_of, worked_of};
ghost use Rattle.value.specs.Operands.{compared_of, Tests};

use crate::Value;
use numbers::refusals::Reason;
use std::cmp::Ordering;
use std::num::nearest_i64_to_f64;
use text::places::Texts;

// How two values compare: their order, which a NaN has with no float; unknown where one is a null; or not at all.
// An enum, as the rules have it: a Result of two Options is no plainer.
#[derive(Clone, Copy, Debug, PartialEq, Eq)]
pub enum Compared {
    Ordered(Option<Ordering>),
    Unknown,
    Incomparable,
}

pub fn compare(texts: &Texts, a: Value, b: Value) -> Compared
    ensures { compared_of result ≡ order.compare (value_of texts.now.catalog.now texts.now.statement.now a)
        (value_of texts.now.catalog.now texts.now.statement.now b) }
{
    match (a, b) {
        (Value::Null, _) | (_, Value::Null) => Compared::Unknown,
        (Value::Bool(x), Value::Bool(y)) => Compared::Ordered(Some(x.cmp(&y))),
        (Value::Int(x), Value::Int(y)) => Compared::Ordered(Some(x.cmp(&y))),
        (Value::Int(m), Value::Float(y)) => {
            let x = nearest_i64_to_f64(m);
            Compared::Ordered(x.partial_cmp(&y))
        }
        (Value::Float(x), Value::Int(n)) => {
            let y = nearest_i64_to_f64(n);
            Compared::Ordered(x.partial_cmp(&y))
        }
        (Value::Float(x), Value::Float(y)) => Compared::Ordered(x.partial_cmp(&y)),
        (Value::Text(x), Value::Text(y)) => Compared::Ordered(Some(texts.order_texts(x, y))),
        _ => Compared::Incomparable,
    }
}

// What a comparison gives that holds in the orders of the test.
fn holds<F: FnOnce(Option<Ordering>) -> bool>(k: Compared, test: F) -> Result<Value, Reason>
    requires { F.IsAlwaysCallable test }
    ensures { (t : order.Order → Bool) (c q : Bytes) → Tests (F.post test) t
        → worked_of c q result ≡ compared t (compared_of k) }
{
    match k {
        Compared::Ordered(o) => Ok(Value::Bool(test(o))),
        Compared::Unknown => Ok(Value::Null),
        Compared::Incomparable => Err(Reason::WrongOperand),
    }
}

pub fn eq(texts: &Texts, a: Value, b: Value) -> Result<Value, Reason>
    ensures { worked_of texts.now.catalog.now texts.now.statement.now result
        ≡ binary_of (ast.plain ast.eq) (value_of texts.now.catalog.now texts.now.statement.now a)
        (value_of texts.now.catalog.now texts.now.statement.now b) }
{
    holds(compare(texts, a, b), |o| o == Some(Ordering::Equal))
}

pub fn gt(texts: &Texts, a: Value, b: Value) -> Result<Value, Reason>
    ensures { worked_of texts.now.catalog.now texts.now.statement.now result
        ≡ binary_of (ast.plain ast.gt) (value_of texts.now.catalog.now texts.now.statement.now a)
        (value_of texts.now.catalog.now texts.now.statement.now b) }
{
    holds(compare(texts, a, b), |o| o == Some(Ordering::Greater))
}

pub fn lt(texts: &Texts, a: Value, b: Value) -> Result<Value, Reason>
    ensures { worked_of texts.now.catalog.now texts.now.statement.now result
        ≡ binary_of (ast.plain ast.lt) (value_of texts.now.catalog.now texts.now.statement.now a)
        (value_of texts.now.catalog.now texts.now.statement.now b) }
{
    holds(compare(texts, a, b), |o| o == Some(Ordering::Less))
}

pub fn ge(texts: &Texts, a: Value, b: Value) -> Result<Value, Reason>
    ensures { worked_of texts.now.catalog.now texts.now.statement.now result
        ≡ binary_of ast.ge (value_of texts.now.catalog.now texts.now.statement.now a)
        (value_of texts.now.catalog.now texts.now.statement.now b) }
{
    holds(compare(texts, a, b), |o| o.is_some_and(Ordering::is_ge))
}

pub fn le(texts: &Texts, a: Value, b: Value) -> Result<Value, Reason>
    ensures { worked_of texts.now.catalog.now texts.now.statement.now result
        ≡ binary_of ast.le (value_of texts.now.catalog.now texts.now.statement.now a)
        (value_of texts.now.catalog.now texts.now.statement.now b) }
{
    holds(compare(texts, a, b), |o| o.is_some_and(Ordering::is_le))
}

pub fn ne(texts: &Texts, a: Value, b: Value) -> Result<Value, Reason>
    ensures { worked_of texts.now.catalog.now texts.now.statement.now result
        ≡ binary_of ast.ne (value_of texts.now.catalog.now texts.now.statement.now a)
        (value_of texts.now.catalog.now texts.now.statement.now b) }
{
    holds(compare(texts, a, b), |o| o != Some(Ordering::Equal))
}

pub fn is_null(a: Value) -> Result<Value, Reason>
    ensures { (c q : Bytes) → worked_of c q result ≡ is_of rule.null (value_of c q a) }
{
    Ok(Value::Bool(matches!(a, Value::Null)))
}

// `is` with a NaN, whatever its bits.
pub fn is_nan(a: Value) -> Result<Value, Reason>
    ensures { (n : ℕ) (c q : Bytes) → worked_of c q result ≡ is_of (rule.float n) (value_of c q a) }
{
    match a {
        Value::Null => Ok(Value::Null),
        Value::Float(x) => Ok(Value::Bool(x.is_nan())),
        _ => Err(Reason::WrongOperand),
    }
}
