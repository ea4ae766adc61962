// Operators at a record's line, and `is`.
ghost use Rattle.std.specs.Prelude.{◌≡◌};
ghost use Rattle.rules.specs.Lists.{Bytes};
ghost use Rattle.rules.specs.Operators.{is_of};
ghost use Rattle.rules.specs.Evaluate.{worked_at};
ghost use Rattle.numbers.specs.Literals.{literal_value};
ghost use Rattle.value.specs.Values.{value_of, worked_of};
ghost use Rattle.expression.specs.Answers.{answer_of};

use numbers::literals::{Literal, LiteralKind};
use numbers::refusals::{Reason, Refusal};
use value::{Value, comparison};

// What an operator gave, for a record at a line. (A name for five places: `map_err` in each would be no plainer.)
#[tactic(auto, unfolding(crate::specs::Answers::answered, rules::specs::Evaluate::worked_at, value::specs::Values::worked_of))]
pub fn worked_at(w: Result<Value, Reason>, line: u32) -> Result<Value, Refusal>
    ensures { (c q : Bytes) → answer_of c q result ≡ worked_at line (worked_of c q w) }
{
    w.map_err(|reason| reason.at(line))
}

// `is` with a literal, in a record at a line: a null, or a NaN; any other is invalid.
#[tactic(auto, unfolding(numbers::specs::Literals::literal_of, crate::specs::Answers::answered, rules::specs::Evaluate::worked_at, rules::specs::Operators::is_of, numbers::specs::Reasons::reason_of))]
pub fn is(literal: Literal, a: Value, line: u32) -> Result<Value, Refusal>
    ensures { (c q : Bytes) → answer_of c q result ≡ worked_at line (is_of (literal_value c q literal) (value_of c q a)) }
{
    match literal.kind {
        LiteralKind::Bool | LiteralKind::Int | LiteralKind::Text => {
            Err(Reason::InvalidIs.at(line))
        }
        LiteralKind::Float => worked_at(comparison::is_nan(a), line),
        LiteralKind::Null => worked_at(comparison::is_null(a), line),
    }
}
