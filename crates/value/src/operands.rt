// Operands told apart, once for all operators.
ghost use Rattle.std.specs.Prelude.{◌≡◌, ℤ, Float};
ghost use Rattle.rules.specs.Lists.{Bytes};
ghost use Rattle.rules.specs.Arithmetic as rule;
ghost use Rattle.rules.specs.Arithmetic.{Worked};
ghost use Rattle.value.specs.Values.{value_of, worked_of};
ghost use Rattle.value.specs.Operands.{GivesInt, GivesFloat, GivesInts, GivesFloats, number_of};

use crate::Value;
use numbers::refusals::Reason;
use std::num::nearest_i64_to_f64;

// An operator on one number.
pub fn on_number<I, F>(a: Value, on_int: I, on_float: F) -> Result<Value, Reason>
where
    I: FnOnce(i64) -> Result<i64, Reason>,
    F: FnOnce(f64) -> Result<f64, Reason>,
    requires ints { I.IsAlwaysCallable on_int }
    requires floats { F.IsAlwaysCallable on_float }
    ensures { (i : ℤ → Worked) (f : Float → Worked) (c q : Bytes) → GivesInt (I.post on_int) i
        → GivesFloat (F.post on_float) f → worked_of c q result ≡ number_of i f (value_of c q a) }
{
    match a {
        Value::Null => Ok(Value::Null),
        Value::Int(x) => on_int(x).map(Value::Int),
        Value::Float(x) => on_float(x).map(Value::Float),
        _ => Err(Reason::WrongOperand),
    }
}

// An operator on two numbers: an integer beside a float becomes a float, to nearest, ties to even.
pub fn on_numbers<I, F>(a: Value, b: Value, on_ints: I, on_floats: F) -> Result<Value, Reason>
where
    I: FnOnce(i64, i64) -> Result<i64, Reason>,
    F: FnOnce(f64, f64) -> Result<f64, Reason>,
    requires ints { I.IsAlwaysCallable on_ints }
    requires floats { F.IsAlwaysCallable on_floats }
    ensures { (i : ℤ → ℤ → Worked) (f : Float → Float → Worked) (c q : Bytes) → GivesInts (I.post on_ints) i
        → GivesFloats (F.post on_floats) f → worked_of c q result ≡ rule.arithmetic i f (rule.numbers (value_of c q a)
        (value_of c q b)) }
{
    match (a, b) {
        (Value::Int(x), Value::Int(y)) => on_ints(x, y).map(Value::Int),
        (Value::Int(x), Value::Float(y)) => on_floats(nearest_i64_to_f64(x), y).map(Value::Float),
        (Value::Float(x), Value::Int(y)) => on_floats(x, nearest_i64_to_f64(y)).map(Value::Float),
        (Value::Float(x), Value::Float(y)) => on_floats(x, y).map(Value::Float),
        (Value::Null, Value::Null | Value::Int(_) | Value::Float(_)) => Ok(Value::Null),
        (Value::Int(_) | Value::Float(_), Value::Null) => Ok(Value::Null),
        _ => Err(Reason::WrongOperand),
    }
}
