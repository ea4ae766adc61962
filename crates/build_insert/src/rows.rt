// The rows of INSERT: the cells of their expressions, over a scope of no columns, and the numbers of their values node.
ghost use Rattle.std.specs.Prelude.{◌+◌, ◌*◌, ◌≤◌, length};
ghost use Rattle.rules.specs.Ast.{size};
ghost use Rattle.rules.specs.Sizes.{total, rows_size};
ghost use Rattle.rules.specs.Area.{row_numbers};
ghost use Rattle.rules.specs.Scope.{empty};
ghost use Rattle.claims.specs.Room.Nodes.{rows_room};
ghost use Rattle.appends.specs.Lists.Entry.{emit_one};
ghost use Rattle.appends.specs.Lists.Kinds.{emit_all};
ghost use Rattle.appends.specs.Statements.Insert.{emit_rows};
ghost use Rattle.ast.specs.Expressions.{tree_in};
ghost use Rattle.plan.specs.Cells.{Room};
ghost use Rattle.build_insert.specs.Lists.{Lists, one_root, all_roots, one_row, values_node};
ghost use Rattle.build_insert.specs.Values.{values_at};
ghost use Rattle.build_insert.specs.Rows.{rows_at, RowsFit};
ghost use Rattle.plan.specs.Pushed.{NodeRoom};

use ast::Expressions;
use ast::rows::next;
use build_expression::build_expression;
use entries::Section;
use numbers::refusals::Refusal;
use plan::nodes::Nodes;
use plan::parts::{begin_values, end};
use scope::view::View;
use sections::entry::{Entry, count, entry_at};

// The value at row r: its cells, and its root among the numbers of the nodes.
fn build_value(
    exprs: &Expressions,
    r: usize,
    area: &mut [u32],
    nodes: &mut Nodes,
    cell: u32,
) -> Result<u32, Refusal>
    requires room { Room cell (3 * size (tree_in exprs.now r)) area.old }
    requires nodes_room { NodeRoom 1 nodes.old }
    ensures { Lists one_root
        (emit_one empty cell (tree_in exprs.now r))
        cell area.old area.new nodes.old nodes.new result }
{
    let empty = View {
        labels: &[],
        matches: &[],
        tables: &[],
    };
    let next = build_expression(exprs, r, &empty, area, cell)?;
    nodes.push(next - 1);
    Ok(next)
}

// Several values one behind the other, the first at row r.
fn build_values(
    exprs: &Expressions,
    r: usize,
    values: u32,
    area: &mut [u32],
    nodes: &mut Nodes,
    cell: u32,
) -> Result<u32, Refusal>
    requires room { Room cell (3 * total size (values_at exprs.now.texts.catalog.now exprs.now.texts.statement.now
        exprs.now.table.now values r)) area.old }
    requires nodes_room { NodeRoom values nodes.old }
    ensures { Lists all_roots
        (emit_all empty cell (values_at exprs.now.texts.catalog.now exprs.now.texts.statement.now exprs.now.table.now
        values r))
        cell area.old area.new nodes.old nodes.new result }
{
    let mut row = r;
    let mut built = cell;
    for _ in 0..values {
        built = build_value(exprs, row, area, nodes, built)?;
        row = next(exprs.table, row);
    }
    Ok(built)
}

// A row: how many values it has, then their roots.
fn build_row(
    exprs: &Expressions,
    e: Entry,
    area: &mut [u32],
    nodes: &mut Nodes,
    cell: u32,
) -> Result<u32, Refusal>
    requires room { Room cell (3 * total size (values_at exprs.now.texts.catalog.now exprs.now.texts.statement.now
        exprs.now.table.now e.expressions e.row)) area.old }
    requires nodes_room { nodes.old.used + 1 + e.expressions ≤ length nodes.old.numbers.now }
    ensures { Lists one_row
        (emit_all empty cell (values_at exprs.now.texts.catalog.now exprs.now.texts.statement.now exprs.now.table.now
        e.expressions e.row))
        cell area.old area.new nodes.old nodes.new result }
{
    nodes.push(e.expressions);
    build_values(exprs, e.row as usize, e.expressions, area, nodes, cell)
}

// All rows, their cells the plan's first ones.
fn build_rows(
    exprs: &Expressions,
    parts: &[u32],
    area: &mut [u32],
    nodes: &mut Nodes,
) -> Result<u32, Refusal>
    requires room { Room 0 (3 * rows_size (rows_at exprs.now.texts.catalog.now exprs.now.texts.statement.now
        exprs.now.table.now parts.now)) area.old }
    requires nodes_room { NodeRoom (rows_room (rows_at exprs.now.texts.catalog.now exprs.now.texts.statement.now
        exprs.now.table.now parts.now)) nodes.old }
    ensures { Lists row_numbers
        (emit_rows empty 0 (rows_at exprs.now.texts.catalog.now exprs.now.texts.statement.now exprs.now.table.now parts.now))
        0 area.old area.new nodes.old nodes.new result }
{
    let rows = count(parts, Section::Row);
    let mut built = 0;
    for i in 0..rows {
        let e = entry_at(parts, Section::Row, i);
        built = build_row(exprs, e, area, nodes, built)?;
    }
    Ok(built)
}

// The values node of all rows, the plan's first.
pub fn build_node(
    exprs: &Expressions,
    parts: &[u32],
    area: &mut [u32],
    nodes: &mut Nodes,
) -> Result<u32, Refusal>
    requires room { Room 0 (3 * rows_size (rows_at exprs.now.texts.catalog.now exprs.now.texts.statement.now
        exprs.now.table.now parts.now)) area.old }
    requires rows_fit { RowsFit (rows_at exprs.now.texts.catalog.now exprs.now.texts.statement.now exprs.now.table.now
        parts.now) nodes.old }
    ensures { Lists values_node
        (emit_rows empty 0 (rows_at exprs.now.texts.catalog.now exprs.now.texts.statement.now exprs.now.table.now parts.now))
        0 area.old area.new nodes.old nodes.new result }
{
    let start = nodes.used;
    begin_values(nodes);
    let cells = build_rows(exprs, parts, area, nodes)?;
    end(nodes, start);
    Ok(cells)
}
