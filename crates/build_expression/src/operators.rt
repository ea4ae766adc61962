// The cells of operators behind those of their operands. The last cell of an operand is its root.
ghost use Rattle.std.specs.Prelude.{◌<◌, Ok};
ghost use Rattle.rules.specs.Lists.{Bytes};
ghost use Rattle.numbers.specs.Operators.{unary_operator};
ghost use Rattle.ast.specs.Table.{binary_at};
ghost use Rattle.ast.specs.Row.{line_at, operator_at, row_literal};
ghost use Rattle.plan.specs.Cells.{Room};
ghost use Rattle.plan.specs.Emits.{Emits};
ghost use Rattle.build_expression.specs.Rows.{unary_step, is_step, binary_step};

use ast::row;
use numbers::operators::Unary;
use numbers::refusals::{Reason, Refusal};
use plan::cells;

// A unary operator, where m is the next cell.
pub fn unary(area: &mut [u32], m: u32, operator: Unary) -> u32
    requires room { Room m 1 area.old }
    requires operand_built { 0 < m }
    ensures { Emits (unary_step (unary_operator operator) m) m area.old area.new (Ok result) }
{
    cells::unary(area, m, operator, m - 1);
    m + 1
}

// The record of `is` at row r.
pub fn is(table: &[u32], r: usize, area: &mut [u32], m: u32) -> Result<u32, Refusal>
    requires room { Room m 1 area.old }
    requires operand_built { 0 < m }
    ensures { (c q : Bytes) → Emits
        (is_step (line_at table.now r) (row_literal c q table.now r) m)
        m area.old area.new result }
{
    let literal = row::literal(table, r);
    if !literal.is_null_or_nan() {
        return Err(Reason::InvalidIs.at(row::line(table, r)));
    }
    cells::is(area, m, m - 1, literal);
    Ok(m + 1)
}

// The binary operator at row r: m is the cell behind its left operand, k that behind its right one.
pub fn binary(table: &[u32], r: usize, area: &mut [u32], m: u32, k: u32) -> u32
    requires room { Room k 3 area.old }
    requires left_built { 0 < m }
    requires right_built { 0 < k }
    ensures { Emits (binary_step (binary_at (operator_at table.now r)) m k)
        k area.old area.new (Ok result) }
{
    let operator = row::binary_operator(table, r);
    cells::operator(area, k, operator, m - 1, k - 1)
}
