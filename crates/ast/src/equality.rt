// Equality of two expressions of the table (ast.rs, PartialEq of Expression and Literal): trees that stand as rows, which no derive
// compares.
ghost use Rattle.std.specs.Prelude.{◌≡◌, not, ◌&&◌, eqb};
ghost use Rattle.rules.specs.Equality.{same_value, equal};
ghost use Rattle.numbers.specs.Literals.{literal_value};
ghost use Rattle.ast.specs.Table.{root_at};
ghost use Rattle.ast.specs.Expressions.{tree_in};
ghost use Rattle.ast.specs.Operands.{kind_at};

use crate::Expressions;
use crate::row::{self, Kind};
use crate::rows::{next, operands};
use numbers::literals::{Literal, LiteralKind};
use text::places::{Place, Texts};

// Whether two literals are the same; floats go by bits, and a flag is set where its number is 1.
pub fn same_value(texts: &Texts, a: Literal, b: Literal) -> bool
    ensures { result ≡ same_value (literal_value texts.now.catalog.now texts.now.statement.now a)
        (literal_value texts.now.catalog.now texts.now.statement.now b) }
{
    if a.kind != b.kind {
        return false;
    }
    match a.kind {
        LiteralKind::Null => true,
        LiteralKind::Bool => (a.first == 1) == (b.first == 1),
        LiteralKind::Int | LiteralKind::Float => a.first == b.first && a.second == b.second,
        LiteralKind::Text => texts.same_bytes(Place::of_literal(a), Place::of_literal(b)),
    }
}

// Whether the trees at two rows are equal but for their operands, and have as many.
fn same_root(exprs: &Expressions, i: usize, j: usize) -> bool
    ensures { result ≡ equal (root_at exprs.now.texts.catalog.now exprs.now.texts.statement.now exprs.now.table.now i)
        (root_at exprs.now.texts.catalog.now exprs.now.texts.statement.now exprs.now.table.now j) }
{
    let texts = exprs.texts;
    let table = exprs.table;
    let kind = row::kind_of(table, i);
    if kind != row::kind_of(table, j) {
        return false;
    }
    match kind {
        Kind::Star => true,
        Kind::Column => texts.same_bytes(row::name(table, i), row::name(table, j)),
        Kind::Qualified => {
            texts.same_bytes(row::qualifier(table, i), row::qualifier(table, j))
                && texts.same_bytes(row::name(table, i), row::name(table, j))
        }
        Kind::Call => {
            row::arguments(table, i) == row::arguments(table, j)
                && texts.same_bytes(row::name(table, i), row::name(table, j))
        }
        Kind::Unary => row::unary_operator(table, i) == row::unary_operator(table, j),
        Kind::Binary => row::binary_operator(table, i) == row::binary_operator(table, j),
        Kind::Is | Kind::Literal => {
            same_value(&texts, row::literal(table, i), row::literal(table, j))
        }
    }
}

// Whether the trees at two rows are equal, root first.
fn same_trees(exprs: &Expressions, i: usize, j: usize) -> bool
    ensures { result ≡ equal (tree_in exprs.now i) (tree_in exprs.now j) }
{
    if !same_root(exprs, i, j) {
        return false;
    }
    let operands = operands(exprs.table, i);
    if operands == 0 {
        return true;
    }
    let mut p = i + 1;
    let mut q = j + 1;
    for _ in 0..operands {
        if !same_trees(exprs, p, q) {
            return false;
        }
        p = next(exprs.table, p);
        q = next(exprs.table, q);
    }
    true
}

// Whether the records at two rows are of two kinds, the second no star.
fn are_apart(table: &[u32], i: usize, j: usize) -> bool
    ensures { result ≡ (not (eqb (kind_at table.now j) 1) && not (eqb (kind_at table.now i) (kind_at table.now j))) }
{
    let kind = row::kind_of(table, j);
    kind != Kind::Star && row::kind_of(table, i) != kind
}

// Whether the trees at two rows are equal. For rows of two kinds, and for one row, no tree is walked.
pub fn equal(exprs: &Expressions, i: usize, j: usize) -> bool
    ensures { result ≡ equal (tree_in exprs.now i) (tree_in exprs.now j) }
{
    if are_apart(exprs.table, i, j) {
        return false;
    }
    if i == j {
        return true;
    }
    same_trees(exprs, i, j)
}
