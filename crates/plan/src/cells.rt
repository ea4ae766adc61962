// Cells appended to the plan in the lent area, the first of them the n-th. Operands are given by their cells. (The next cell stays
// beside the area: `let m = build(.., n)?` names an operand, which with a count in the area would be `build(..)?; let m = cells.used`.)
ghost use Rattle.std.specs.Prelude.{◌≡◌, [], ◌∷◌, ◌+◌};
ghost use Rattle.rules.specs.Lists.{Bytes};
ghost use Rattle.rules.specs.Ast as ast;
ghost use Rattle.rules.specs.Area.{cell_numbers};
ghost use Rattle.rules.specs.Schema.{float};
ghost use Rattle.rules.specs.Cells as rules;
ghost use Rattle.numbers.specs.Operators.{unary_operator, binary_operator};
ghost use Rattle.numbers.specs.Bits.{joined};
ghost use Rattle.numbers.specs.Literals.{literal_value};
ghost use Rattle.plan.specs.Cells.{Room, Puts, Operated};

use super::{CELL_SIZE, HEADER_SIZE};
use literal::planned::in_plan;
use numbers::literals::{Literal, LiteralKind};
use numbers::operators::{Binary, Unary};
use numbers::put;
use text::places::Texts;

// The kinds of cells that are neither a literal's nor an operator's: docs/PLAN.md.
pub const COLUMN: u32 = 6;

pub const IS_NULL: u32 = 14;

pub const IS_NAN: u32 = 15;

// A cell of a kind and three numbers, whose meaning goes by ranges of kinds: an enum would be taken apart here.
fn put_cell(area: &mut [u32], n: u32, kind: u32, a: u32, b: u32, c: u32)
    requires { Room n 1 area.old }
    ensures { (x : rules.Cell) → cell_numbers x ≡ kind ∷ a ∷ b ∷ c ∷ []
        → Puts n (x ∷ []) area.old area.new }
{
    put(area, HEADER_SIZE + CELL_SIZE * n as usize, [kind, a, b, c]);
}

// The column i.
pub fn column(area: &mut [u32], n: u32, i: u32)
    requires { Room n 1 area.old }
    ensures { Puts n (rules.column i ∷ []) area.old area.new }
{
    put_cell(area, n, COLUMN, i, 0, 0);
}

// A literal, its bits kept. Of a text, as many bytes as there are.
pub fn constant(texts: &Texts, area: &mut [u32], n: u32, literal: Literal)
    requires { Room n 1 area.old }
    ensures { Puts n
        (rules.constant (literal_value texts.now.catalog.now texts.now.statement.now literal) ∷ [])
        area.old area.new }
{
    let x = in_plan(texts, literal);
    put_cell(area, n, u32::from(x.kind), x.first, x.second, 0);
}

// `is` with a NaN, its bits kept.
fn is_nan(area: &mut [u32], n: u32, x: u32, low: u32, high: u32)
    requires { Room n 1 area.old }
    ensures { Puts n (rules.is x (float (joined low high)) ∷ []) area.old area.new }
{
    put_cell(area, n, IS_NAN, x, low, high);
}

// `is` with a literal: a NaN, or a null.
pub fn is(area: &mut [u32], n: u32, x: u32, literal: Literal)
    requires { Room n 1 area.old }
    ensures { (c q : Bytes) → Puts n (rules.is x (literal_value c q literal) ∷ [])
        area.old area.new }
{
    match literal.kind {
        LiteralKind::Float => is_nan(area, n, x, literal.first, literal.second),
        _ => put_cell(area, n, IS_NULL, x, 0, 0),
    }
}

pub fn unary(area: &mut [u32], n: u32, operator: Unary, x: u32)
    requires { Room n 1 area.old }
    ensures { Puts n (rules.unary (unary_operator operator) x ∷ []) area.old area.new }
{
    put_cell(area, n, u32::from(operator), x, 0, 0);
}

// A binary operator that a plan has.
fn plain(area: &mut [u32], n: u32, operator: Binary, x: u32, y: u32)
    requires { Room n 1 area.old }
    ensures { (o : ast.Plain) → binary_operator operator ≡ ast.plain o
        → Puts n (rules.binary o x y ∷ []) area.old area.new }
{
    put_cell(area, n, u32::from(operator), x, y, 0);
}

// `>=` and `<=`: a comparison, equality, and one or the other, over the same operands. Gives the next cell.
fn or_equal(area: &mut [u32], n: u32, comparison: Binary, x: u32, y: u32) -> u32
    requires { Room n 3 area.old }
    ensures value { result ≡ n + 3 }
    ensures puts { (o : ast.Plain) → binary_operator comparison ≡ ast.plain o
        → Puts n (rules.binary o x y ∷ rules.binary ast.eq x y ∷ rules.binary ast.or n (n + 1) ∷ [])
        area.old area.new }
{
    plain(area, n, comparison, x, y);
    plain(area, n + 1, Binary::Equal, x, y);
    plain(area, n + 2, Binary::Or, n, n + 1);
    n + 3
}

// `!=`: equality, and not that.
fn not_equal(area: &mut [u32], n: u32, x: u32, y: u32) -> u32
    requires { Room n 2 area.old }
    ensures value { result ≡ n + 2 }
    ensures puts { Puts n (rules.binary ast.eq x y ∷ rules.unary ast.not n ∷ [])
        area.old area.new }
{
    plain(area, n, Binary::Equal, x, y);
    unary(area, n + 1, Unary::Not, n);
    n + 2
}

// The cells of a binary operator. Gives the next cell.
pub fn operator(area: &mut [u32], n: u32, operator: Binary, x: u32, y: u32) -> u32
    requires { Room n 3 area.old }
    ensures { Operated (binary_operator operator) n x y area.old area.new result }
{
    match operator {
        Binary::GreaterThanOrEqual => or_equal(area, n, Binary::GreaterThan, x, y),
        Binary::LessThanOrEqual => or_equal(area, n, Binary::LessThan, x, y),
        Binary::NotEqual => not_equal(area, n, x, y),
        _ => {
            plain(area, n, operator, x, y);
            n + 1
        }
    }
}
