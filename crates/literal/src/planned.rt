// Literals as the plan has them.
ghost use Rattle.std.specs.Prelude.{◌≡◌};
ghost use Rattle.rules.specs.Area.{value_numbers};
ghost use Rattle.numbers.specs.Literals.{literal_value, literal_numbers};

use numbers::literals::{Literal, LiteralKind};
use text::places::{Place, Texts};

// A literal with the numbers of its cell: a flag is 0 or 1, and a text has as many bytes as there are.
pub fn in_plan(texts: &Texts, literal: Literal) -> Literal
    ensures { literal_numbers result ≡ value_numbers (literal_value texts.now.catalog.now texts.now.statement.now literal) }
{
    match literal.kind {
        LiteralKind::Null => Literal {
            first: 0,
            second: 0,
            ..literal
        },
        LiteralKind::Bool => Literal {
            first: u32::from(literal.first == 1),
            second: 0,
            ..literal
        },
        LiteralKind::Int | LiteralKind::Float => literal,
        LiteralKind::Text => Literal {
            second: texts.length_at(Place::of_literal(literal)),
            ..literal
        },
    }
}
