// What the operators of expressions give.
ghost use Rattle.std.specs.Prelude.{◌≡◌};
ghost use Rattle.rules.specs.Lists.{Bytes};
ghost use Rattle.rules.specs.Operators.{unary_of, binary_of};
ghost use Rattle.numbers.specs.Operators.{unary_operator, binary_operator};
ghost use Rattle.value.specs.Values.{value_of, worked_of};

use crate::{Value, arithmetic, comparison, logic};
use numbers::operators::{Binary, Unary};
use numbers::refusals::Reason;
use text::places::Texts;

#[tactic(auto, unfolding(numbers::specs::Operators::unary_operator))]
pub fn unary(operator: Unary, a: Value) -> Result<Value, Reason>
    ensures { (c q : Bytes) → worked_of c q result ≡ unary_of (unary_operator operator) (value_of c q a) }
{
    match operator {
        Unary::Not => logic::not(a),
        Unary::Factorial => arithmetic::fact(a),
        Unary::Identity => arithmetic::ident(a),
        Unary::Negate => arithmetic::neg(a),
        Unary::SquareRoot => arithmetic::sqrt(a),
    }
}

// Each operand is worked out once, before: `>=`, `<=` and `!=` are one comparison.
#[tactic(auto, unfolding(numbers::specs::Operators::binary_operator, rules::specs::Operators::binary_of))]
pub fn binary(texts: &Texts, operator: Binary, a: Value, b: Value) -> Result<Value, Reason>
    ensures { worked_of texts.now.catalog.now texts.now.statement.now result
        ≡ binary_of (binary_operator operator) (value_of texts.now.catalog.now texts.now.statement.now a)
        (value_of texts.now.catalog.now texts.now.statement.now b) }
{
    match operator {
        Binary::And => logic::and(a, b),
        Binary::Or => logic::or(a, b),
        Binary::Equal => comparison::eq(texts, a, b),
        Binary::GreaterThan => comparison::gt(texts, a, b),
        Binary::LessThan => comparison::lt(texts, a, b),
        Binary::Add => arithmetic::add(a, b),
        Binary::Divide => arithmetic::div(a, b),
        Binary::Exponentiate => arithmetic::pow(a, b),
        Binary::Multiply => arithmetic::mul(a, b),
        Binary::Remainder => arithmetic::rem(a, b),
        Binary::Subtract => arithmetic::sub(a, b),
        Binary::Like => logic::like(a, b),
        Binary::GreaterThanOrEqual => comparison::ge(texts, a, b),
        Binary::LessThanOrEqual => comparison::le(texts, a, b),
        Binary::NotEqual => comparison::ne(texts, a, b),
    }
}
