// AND, OR, NOT and LIKE (expression.rs, evaluate): a null stands for an unknown truth.
#![tactic(auto, unfolding(crate::specs::Values::value_of, crate::specs::Values::worked_of, numbers::specs::Reasons::reason_of, rules::specs::Operators::unary_of, rules::specs::Operators::not_of, rules::specs::Operators::plain_of, rules::specs::Operators::logic, rules::specs::Operators::and_unknown, rules::specs::Operators::or_unknown, rules::specs::Operators::like_of))]

ghost use Rattle.std.specs.Prelude.{◌≡◌};
ghost use Rattle.rules.specs.Lists.{Bytes};
ghost use Rattle.rules.specs.Ast as ast;
ghost use Rattle.rules.specs.Operators.{plain_of, unary_of};
ghost use Rattle.value.specs.Values.{value_of, worked_of};

use crate::Value;
use numbers::refusals::Reason;

// Apart from `or`: one body for both, by what a truth absorbs, is no plainer.
pub fn and(a: Value, b: Value) -> Result<Value, Reason>
    ensures { (c q : Bytes) → worked_of c q result ≡ plain_of ast.and (value_of c q a) (value_of c q b) }
{
    match (a, b) {
        (Value::Bool(x), Value::Bool(y)) => Ok(Value::Bool(x && y)),
        (Value::Null, Value::Bool(false)) => Ok(Value::Bool(false)),
        (Value::Bool(false), Value::Null) => Ok(Value::Bool(false)),
        (Value::Null | Value::Bool(_), Value::Null | Value::Bool(_)) => Ok(Value::Null),
        _ => Err(Reason::WrongOperand),
    }
}

pub fn or(a: Value, b: Value) -> Result<Value, Reason>
    ensures { (c q : Bytes) → worked_of c q result ≡ plain_of ast.or (value_of c q a) (value_of c q b) }
{
    match (a, b) {
        (Value::Bool(x), Value::Bool(y)) => Ok(Value::Bool(x || y)),
        (Value::Null, Value::Bool(true)) => Ok(Value::Bool(true)),
        (Value::Bool(true), Value::Null) => Ok(Value::Bool(true)),
        (Value::Null | Value::Bool(_), Value::Null | Value::Bool(_)) => Ok(Value::Null),
        _ => Err(Reason::WrongOperand),
    }
}

pub fn not(a: Value) -> Result<Value, Reason>
    ensures { (c q : Bytes) → worked_of c q result ≡ unary_of ast.not (value_of c q a) }
{
    match a {
        Value::Null => Ok(Value::Null),
        Value::Bool(x) => Ok(Value::Bool(!x)),
        _ => Err(Reason::WrongOperand),
    }
}

// LIKE of two texts is not worked out.
pub fn like(a: Value, b: Value) -> Result<Value, Reason>
    ensures { (c q : Bytes) → worked_of c q result ≡ plain_of ast.like (value_of c q a) (value_of c q b) }
{
    match (a, b) {
        (Value::Text(_), Value::Text(_)) => Err(Reason::NotWorkedOut),
        (Value::Null | Value::Text(_), Value::Null | Value::Text(_)) => Ok(Value::Null),
        _ => Err(Reason::WrongOperand),
    }
}
