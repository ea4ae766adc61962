// What one record says of an expression, as the numbers of its row (specs/Table.antt).
ghost use Rattle.std.specs.Prelude.{◌≡◌, List, [], ◌∷◌, ℕ, ◌≤◌, Some};
ghost use Rattle.std.proofs.Math.Option.{Option, some};
ghost use Rattle.rules.specs.Refusals.{statement};
ghost use Rattle.rules.specs.Limits.{most_bytes};
ghost use Rattle.rules.specs.Lists.{map_option, named};
ghost use Rattle.rules.specs.Schema.{Value};
ghost use Rattle.rules.specs.Reader.{line_here, one_of};
ghost use Rattle.rules.specs.ReadExpression.{unary_head, binary_head, value_head, operators, column_fields, call_fields, heads};
ghost use Rattle.text.specs.Lines.{field};
ghost use Rattle.text.specs.Reading.{place};
ghost use Rattle.text.specs.Fields.{Inside};
ghost use Rattle.numbers.specs.Operators.{unary_operator, binary_operator};
ghost use Rattle.literal.specs.Records.{IsLiteral};
ghost use Rattle.ast.specs.declared.row.Kind.TheVariants as K;
ghost use Rattle.numbers.specs.Literals.{kind_number};
ghost use Rattle.read_expression.specs.Reading.{LineAt};
ghost use Rattle.read_expression.specs.RowOf.{Plain, RowOf};

use ast::row::Kind;
use literal::record::literal_at;
use numbers::literals::Literal;
use numbers::operators::{Binary, Unary};
use text::places::{Place, name_at};
use text::{Field, Line, MOST_BYTES};

// A row but its line and its size, and how many operands follow its record. The code is an operator's, a literal's kind by its number, or how
// many arguments a call has: a number, as it stands in the table.
#[derive(Clone, Copy, Debug, PartialEq, Eq)]
pub struct Row {
    pub code: u32,
    pub a: u32,
    pub b: u32,
    pub c: u32,
    pub d: u32,
    pub operands: u32,
    pub kind: Kind,
}

// A row with no place and no literal.
fn plain_row(kind: Kind, code: u32, operands: u32) -> Row
    ensures { Plain result kind code operands }
{
    Row {
        kind,
        code,
        a: 0,
        b: 0,
        c: 0,
        d: 0,
        operands,
    }
}

fn unary(operator: Unary) -> Row
    ensures { (t : List ℕ) → RowOf t (some (unary_head (unary_operator operator))) (Some result) }
{
    plain_row(Kind::Unary, u32::from(operator), 1)
}

fn binary(operator: Binary) -> Row
    ensures { (t : List ℕ) → RowOf t (some (binary_head (binary_operator operator))) (Some result) }
{
    plain_row(Kind::Binary, u32::from(operator), 2)
}

// An operator by its field.
fn operator(word: &[u8]) -> Option<Row>
    ensures { (t : List ℕ) → RowOf t (named operators word.now) result }
{
    match text::packed(word) {
        text::words::AND => Some(binary(Binary::And)),
        text::words::NOT => Some(unary(Unary::Not)),
        text::words::OR => Some(binary(Binary::Or)),
        text::words::EQ => Some(binary(Binary::Equal)),
        text::words::GT => Some(binary(Binary::GreaterThan)),
        text::words::GE => Some(binary(Binary::GreaterThanOrEqual)),
        text::words::IS => Some(plain_row(Kind::Is, 0, 1)),
        text::words::LT => Some(binary(Binary::LessThan)),
        text::words::LE => Some(binary(Binary::LessThanOrEqual)),
        text::words::NE => Some(binary(Binary::NotEqual)),
        text::words::ADD => Some(binary(Binary::Add)),
        text::words::DIV => Some(binary(Binary::Divide)),
        text::words::POW => Some(binary(Binary::Exponentiate)),
        text::words::FACT => Some(unary(Unary::Factorial)),
        text::words::IDENT => Some(unary(Unary::Identity)),
        text::words::MUL => Some(binary(Binary::Multiply)),
        text::words::NEG => Some(unary(Unary::Negate)),
        text::words::REM => Some(binary(Binary::Remainder)),
        text::words::SUB => Some(binary(Binary::Subtract)),
        text::words::LIKE => Some(binary(Binary::Like)),
        _ => None,
    }
}

// A column's name.
fn column(name: Field) -> Option<Row>
    requires { (name.start ≤ 65536) × (name.length ≤ 65536) }
    ensures { (t : List ℕ) → Inside t name.start name.length
        → RowOf t (column_fields (field most_bytes t name.start name.length ∷ [])) result }
{
    let name = name_at(name)?;
    Some(Row {
        a: name.address,
        b: name.length,
        ..plain_row(Kind::Column, 0, 0)
    })
}

// A qualified column by its table's name and its own.
pub(crate) fn qualified_row(table: Place, name: Place) -> Row
    ensures { result ≡ record {
      code = 0;
      a = name.address;
      b = name.length;
      c = table.address;
      d = table.length;
      operands = 0;
      kind = K.Qualified;
    } }
{
    Row {
        a: name.address,
        b: name.length,
        c: table.address,
        d: table.length,
        ..plain_row(Kind::Qualified, 0, 0)
    }
}

// A column's table and name.
fn qualified(table: Field, name: Field) -> Option<Row>
    requires table { (table.start ≤ 65536) × (table.length ≤ 65536) }
    requires name { (name.start ≤ 65536) × (name.length ≤ 65536) }
    ensures { (t : List ℕ) → Inside t table.start table.length → Inside t name.start name.length → RowOf t
        (column_fields (field most_bytes t table.start table.length ∷ field most_bytes t name.start name.length ∷ []))
        result }
{
    let table = name_at(table)?;
    let name = name_at(name)?;
    Some(qualified_row(table, name))
}

// A function's name and the number of its arguments.
fn call(name: Field, arguments: &[u8]) -> Option<Row>
    requires { (name.start ≤ 65536) × (name.length ≤ 65536) }
    ensures { (t : List ℕ) (o : ℕ) → Inside t name.start name.length → RowOf t
        (call_fields (field most_bytes t name.start name.length ∷ record { bytes = arguments.now; start = o } ∷ []))
        result }
{
    let name = name_at(name)?;
    let v = text::count(arguments)?;
    let k = v as u32;
    Some(Row {
        a: name.address,
        b: name.length,
        ..plain_row(Kind::Call, k, k)
    })
}

// A literal as an expression.
pub(crate) fn literal_row(literal: Literal) -> Row
    ensures says { (t : List ℕ) (o : Option Value) → IsLiteral most_bytes t o (Some literal)
        → RowOf t (map_option value_head o) (Some result) }
    ensures row { result ≡ record {
      code = kind_number literal.kind;
      a = literal.first;
      b = literal.second;
      c = 0;
      d = 0;
      operands = 0;
      kind = K.Literal;
    } }
{
    Row {
        a: literal.first,
        b: literal.second,
        ..plain_row(Kind::Literal, u32::from(literal.kind), 0)
    }
}

// The expression record at a position, by its fields.
pub fn head(t: &[u8], p: usize, f: Line) -> Option<Row>
    requires { LineAt t.now p f }
    ensures { (l c k : ℕ) → RowOf t.now (one_of heads (line_here (place statement t.now p l c k))) result }
{
    match text::packed(f.field(t, 0)) {
        text::words::OP => match f.count {
            2 => operator(f.field(t, 1)),
            _ => None,
        },
        text::words::COL => match f.count {
            2 => column(f.fields[1]),
            3 => qualified(f.fields[1], f.fields[2]),
            _ => None,
        },
        text::words::FN => match f.count {
            3 => call(f.fields[1], f.field(t, 2)),
            _ => None,
        },
        text::words::STAR => match f.count {
            1 => Some(plain_row(Kind::Star, 0, 0)),
            _ => None,
        },
        _ => Some(literal_row(literal_at(t, MOST_BYTES, p, &f)?)),
    }
}
