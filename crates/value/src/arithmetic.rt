// Arithmetic on values (value.rs, checked_add .. checked_sub; expression.rs, evaluate).
ghost use Rattle.std.specs.Prelude.{◌≡◌};
ghost use Rattle.rules.specs.Lists.{Bytes};
ghost use Rattle.rules.specs.Arithmetic as rule;
ghost use Rattle.rules.specs.Arithmetic.{raised};
ghost use Rattle.rules.specs.Ast as ast;
ghost use Rattle.rules.specs.Operators.{plain_of, unary_of, root_of};
ghost use Rattle.rules.specs.Schema.{int};
ghost use Rattle.ints.specs.Checked.{checked};
ghost use Rattle.value.specs.Values.{value_of, worked_of};

use crate::Value;
use crate::operands::{on_number, on_numbers};
use numbers::refusals::Reason;

pub fn add(a: Value, b: Value) -> Result<Value, Reason>
    ensures { (c q : Bytes) → worked_of c q result ≡ plain_of ast.add (value_of c q a) (value_of c q b) }
{
    on_numbers(a, b, ints::add, |x, y| Ok(x + y))
}

pub fn sub(a: Value, b: Value) -> Result<Value, Reason>
    ensures { (c q : Bytes) → worked_of c q result ≡ plain_of ast.sub (value_of c q a) (value_of c q b) }
{
    on_numbers(a, b, ints::sub, |x, y| Ok(x - y))
}

pub fn mul(a: Value, b: Value) -> Result<Value, Reason>
    ensures { (c q : Bytes) → worked_of c q result ≡ plain_of ast.mul (value_of c q a) (value_of c q b) }
{
    on_numbers(a, b, ints::mul, |x, y| Ok(x * y))
}

pub fn div(a: Value, b: Value) -> Result<Value, Reason>
    ensures { (c q : Bytes) → worked_of c q result ≡ plain_of ast.div (value_of c q a) (value_of c q b) }
{
    on_numbers(a, b, ints::div, |x, y| Ok(x / y))
}

pub fn rem(a: Value, b: Value) -> Result<Value, Reason>
    ensures { (c q : Bytes) → worked_of c q result ≡ plain_of ast.rem (value_of c q a) (value_of c q b) }
{
    on_numbers(a, b, ints::rem, |x, y| Ok(remainder::remainder(x, y)))
}

// A power that gives a float is not worked out.
pub fn pow(a: Value, b: Value) -> Result<Value, Reason>
    ensures { (c q : Bytes) → worked_of c q result ≡ plain_of ast.pow (value_of c q a) (value_of c q b) }
{
    on_numbers(a, b, power, |_, _| Err(Reason::NotWorkedOut))
}

fn power(x: i64, y: i64) -> Result<i64, Reason>
    ensures { checked result ≡ raised x y }
{
    let exponent = u64::try_from(y).map_err(|_| Reason::NotWorkedOut)?;
    ints::pow(x, exponent)
}

pub fn fact(a: Value) -> Result<Value, Reason>
    ensures { (c q : Bytes) → worked_of c q result ≡ unary_of ast.fact (value_of c q a) }
{
    on_number(a, factorial, |_| Err(Reason::WrongOperand))
}

fn factorial(x: i64) -> Result<i64, Reason>
    ensures { checked result ≡ rule.factorial x }
{
    let n = u64::try_from(x).map_err(|_| Reason::WrongOperand)?;
    ints::factorial(n)
}

pub fn ident(a: Value) -> Result<Value, Reason>
    ensures { (c q : Bytes) → worked_of c q result ≡ unary_of ast.ident (value_of c q a) }
{
    on_number(a, Ok, Ok)
}

pub fn neg(a: Value) -> Result<Value, Reason>
    ensures { (c q : Bytes) → worked_of c q result ≡ unary_of ast.neg (value_of c q a) }
{
    on_number(a, ints::neg, |x| Ok(-x))
}

// A root is not worked out.
pub fn sqrt(a: Value) -> Result<Value, Reason>
    ensures { (c q : Bytes) → worked_of c q result ≡ unary_of ast.sqrt (value_of c q a) }
{
    on_number(a, root, |_| Err(Reason::NotWorkedOut))
}

fn root(x: i64) -> Result<i64, Reason>
    ensures { checked result ≡ root_of (int x) }
{
    if x < 0 {
        return Err(Reason::WrongOperand);
    }
    Err(Reason::NotWorkedOut)
}
