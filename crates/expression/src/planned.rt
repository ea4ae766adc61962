// The value of a constant as the plan takes it: a number of 0 or more for OFFSET and LIMIT, and a literal.
ghost use Rattle.std.specs.Prelude.{◌≡◌, ℕ};
ghost use Rattle.rules.specs.Lists.{Bytes};
ghost use Rattle.rules.specs.Refusals as rule;
ghost use Rattle.rules.specs.BuildSelect.{natural};
ghost use Rattle.rules.specs.Area.{value_numbers};
ghost use Rattle.value.specs.Values.{value_of};
ghost use Rattle.numbers.specs.Literals.{literal_numbers};
ghost use Rattle.expression.specs.Answers.{constant_value};
ghost use Rattle.expression.specs.Numbers.{natural_of};

use crate::Constant;
use numbers::literals::{Literal, LiteralKind};
use text::places::Texts;
use value::Value;

#[tactic(auto, unfolding(crate::specs::Numbers::natural_of, rules::specs::BuildSelect::natural, value::specs::Values::value_of))]
fn value_natural(v: Value) -> Option<u64>
    ensures { (r : rule.Reason) (l : ℕ) (c q : Bytes) → natural_of r l result ≡ natural r l (value_of c q v) }
{
    match v {
        Value::Int(n) => u64::try_from(n).ok(),
        _ => None,
    }
}

// The number of 0 or more that a constant is.
#[tactic(auto, unfolding(crate::specs::Answers::constant_value, rules::specs::BuildSelect::natural, value::specs::Values::held))]
pub fn to_natural(constant: Constant) -> Option<u64>
    ensures { (r : rule.Reason) (l : ℕ) (c q : Bytes) → natural_of r l result ≡ natural r l (constant_value c q constant) }
{
    match constant {
        Constant::Literal(literal) => value_natural(value::literals::literal(literal)),
        Constant::Value(v) => value_natural(v),
    }
}

// A value that was worked out, as the literal that it is in the plan.
#[tactic(auto, unfolding(numbers::specs::Literals::kind_number, rules::specs::Area::value_numbers, rules::specs::Area::flag, rules::specs::Area::span, rules::specs::Places::word_at, value::specs::Values::value_of, rules::specs::Area::halves))]
pub fn of_value(texts: &Texts, v: Value) -> Literal
    ensures { literal_numbers result ≡ value_numbers (value_of texts.now.catalog.now texts.now.statement.now v) }
{
    match v {
        Value::Null => Literal {
            kind: LiteralKind::Null,
            first: 0,
            second: 0,
        },
        Value::Bool(b) => Literal {
            kind: LiteralKind::Bool,
            first: u32::from(b),
            second: 0,
        },
        Value::Int(n) => Literal::of_bits(LiteralKind::Int, ints::bits::to_bits(n)),
        Value::Float(x) => Literal::of_bits(LiteralKind::Float, value::bits::to_bits(x)),
        Value::Text(place) => Literal {
            kind: LiteralKind::Text,
            first: place.address,
            second: texts.length_at(place),
        },
    }
}
