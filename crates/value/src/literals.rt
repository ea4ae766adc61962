// Literals by their kinds and their two numbers (crate numbers, specs/Literals.antt).
ghost use Rattle.std.specs.Prelude.{◌≡◌};
ghost use Rattle.rules.specs.Lists.{Bytes};
ghost use Rattle.numbers.specs.Literals.{literal_value};
ghost use Rattle.value.specs.Values.{value_of, held};

use crate::Value;
use numbers::literals::{Literal, LiteralKind};
use text::places::Place;

// A literal's value.
#[tactic(auto, unfolding(numbers::specs::Literals::literal_of, numbers::specs::Values::is_one, crate::specs::Values::value_of, crate::specs::Values::held))]
pub fn literal(literal: Literal) -> Value
    ensures { (c q : Bytes) → value_of c q result ≡ held (literal_value c q literal) }
{
    let n = literal.bits();
    match literal.kind {
        LiteralKind::Null => Value::Null,
        LiteralKind::Bool => Value::Bool(literal.first == 1),
        LiteralKind::Int => Value::Int(ints::bits::from_bits(n)),
        LiteralKind::Float => Value::Float(crate::bits::from_bits(n)),
        LiteralKind::Text => Value::Text(Place::of_literal(literal)),
    }
}
