// The operators on values, exported for the host by numbers: an operator's code, and of each value its kind and 64 bits.
#![tactic(auto)]

ghost use Rattle.std.specs.Prelude.{◌≡◌, ℕ};
ghost use Rattle.rules.specs.Lists.{Bytes};
ghost use Rattle.rules.specs.Schema as rule;
ghost use Rattle.rules.specs.Operators.{is_of};
ghost use Rattle.numbers.specs.Literals.{kind_number};
ghost use Rattle.value.specs.Values.{value_of, worked_of, held};
ghost use Rattle.value_host.specs.Numbers.{value_by, kind_of, bits_of, answer_of};
ghost use Rattle.value_host.specs.Codes.{unary_worked, binary_worked};

use numbers::halves::{high, low};
use numbers::literals::{Literal, LiteralKind};
use numbers::operators::{Binary, Unary};
use numbers::refusals::Reason;
use text::places::Texts;
use value::{Value, comparison, literals, operators};

// Document 01's number of a refusal, or 0 and the value's kind and bits.
#[repr(C)]
#[derive(Clone, Copy, Debug, PartialEq, Eq)]
pub struct Answer {
    pub refusal: u32,
    pub kind: u32,
    pub bits: u64,
}

#[tactic(auto, unfolding(crate::specs::Numbers::value_by))]
fn value_at(kind: u32, n: u64) -> Value
    ensures { (c q : Bytes) → value_of c q result ≡ held (value_by c q kind n) }
{
    let kind = LiteralKind::of_number(kind);
    match kind {
        LiteralKind::Text => literals::literal(Literal {
            kind,
            first: high(n),
            second: low(n),
        }),
        _ => literals::literal(Literal::of_bits(kind, n)),
    }
}

#[tactic(auto, unfolding(crate::specs::Numbers::kind_of, numbers::specs::Literals::kind_number, value::specs::Values::value_of))]
fn kind_of(v: Value) -> LiteralKind
    ensures { (c q : Bytes) → kind_number result ≡ kind_of (value_of c q v) }
{
    match v {
        Value::Null => LiteralKind::Null,
        Value::Bool(_) => LiteralKind::Bool,
        Value::Int(_) => LiteralKind::Int,
        Value::Float(_) => LiteralKind::Float,
        Value::Text(_) => LiteralKind::Text,
    }
}

#[tactic(auto, unfolding(crate::specs::Numbers::bits_of, value::specs::Values::value_of, rules::specs::Area::flag, rules::specs::Places::word_at))]
fn bits_of(v: Value) -> u64
    ensures { (c q : Bytes) → result ≡ bits_of (value_of c q v) }
{
    match v {
        Value::Null => 0,
        Value::Bool(b) => u64::from(b),
        Value::Int(x) => ints::bits::to_bits(x),
        Value::Float(x) => value::bits::to_bits(x),
        Value::Text(place) => u64::from(place.address),
    }
}

#[tactic(auto, unfolding(crate::specs::Numbers::answer_of, crate::specs::Numbers::refused_by, value::specs::Values::worked_of))]
fn answered(w: Result<Value, Reason>) -> Answer
    ensures { (c q : Bytes) → result ≡ answer_of (worked_of c q w) }
{
    match w {
        Ok(v) => Answer {
            refusal: 0,
            kind: u32::from(kind_of(v)),
            bits: bits_of(v),
        },
        Err(r) => Answer {
            refusal: u32::from(r),
            kind: 0,
            bits: 0,
        },
    }
}

// By code; `NotWorkedOut` where no operator has it, unlike the statement's table (crate ast).
fn unary(op: u32, a: Value) -> Result<Value, Reason>
    ensures { (c q : Bytes) → worked_of c q result ≡ unary_worked op (value_of c q a) }
{
    let operator = Unary::try_from(op).map_err(|_| Reason::NotWorkedOut)?;
    operators::unary(operator, a)
}

fn binary(texts: &Texts, op: u32, a: Value, b: Value) -> Result<Value, Reason>
    ensures { worked_of texts.now.catalog.now texts.now.statement.now result
        ≡ binary_worked op (value_of texts.now.catalog.now texts.now.statement.now a)
        (value_of texts.now.catalog.now texts.now.statement.now b) }
{
    let operator = Binary::try_from(op).map_err(|_| Reason::NotWorkedOut)?;
    operators::binary(texts, operator, a, b)
}

#[unsafe(no_mangle)]
pub extern "C" fn value_unary(op: u32, kind: u32, n: u64) -> Answer
    ensures { (c q : Bytes) → result ≡ answer_of (unary_worked op (value_by c q kind n)) }
{
    answered(unary(op, value_at(kind, n)))
}

// Kind k and bits m with kind l and bits n. Texts stand in the catalog's and the statement's bytes.
#[unsafe(no_mangle)]
pub extern "C" fn value_binary(
    catalog: &[u8],
    statement: &[u8],
    op: u32,
    k: u32,
    m: u64,
    l: u32,
    n: u64,
) -> Answer
    ensures { result ≡ answer_of (binary_worked op (value_by catalog.now statement.now k m)
        (value_by catalog.now statement.now l n)) }
{
    let a = value_at(k, m);
    let b = value_at(l, n);
    let texts = Texts { catalog, statement };
    answered(binary(&texts, op, a, b))
}

#[unsafe(no_mangle)]
pub extern "C" fn value_is_null(kind: u32, n: u64) -> Answer
    ensures { (c q : Bytes) → result ≡ answer_of (is_of rule.null (value_by c q kind n)) }
{
    answered(comparison::is_null(value_at(kind, n)))
}

// `is` with a NaN, whatever its bits m.
#[unsafe(no_mangle)]
pub extern "C" fn value_is_nan(kind: u32, n: u64) -> Answer
    ensures { (m : ℕ) (c q : Bytes) → result ≡ answer_of (is_of (rule.float m) (value_by c q kind n)) }
{
    answered(comparison::is_nan(value_at(kind, n)))
}
