// ORDER: the cells of its keys, and an order behind the node before it.
ghost use Rattle.std.specs.Prelude.{◌+◌, ◌*◌, length};
ghost use Rattle.rules.specs.Ast.{size};
ghost use Rattle.rules.specs.Sizes.{keys_size};
ghost use Rattle.ast.specs.Expressions.{tree_in};
ghost use Rattle.sections.specs.Expressions.{expr_row};
ghost use Rattle.plan.specs.Layout.{source_head, key_size};
ghost use Rattle.plan.specs.Pushed.{NodeRoom};
ghost use Rattle.plan.specs.Cells.{Room};
ghost use Rattle.build_clauses.specs.Follows.{Follows};
ghost use Rattle.build_clauses.specs.Keys.{keys_at, KeyPut, KeysPut};
ghost use Rattle.build_clauses.specs.Orders.{OrderBuilt};

use ast::Expressions;
use build_expression::build_expression;
use entries::Section;
use numbers::refusals::Refusal;
use plan::nodes::{Kind, Nodes};
use plan::parts::{begin, end, key};
use plan::steps::Step;
use scope::view::View;
use sections::entry;
use sections::entry::{Entry, descends, entry_at};

// The key of an entry, which descends or not: its cells, and its part of the record.
fn put_key(
    exprs: &Expressions,
    e: Entry,
    descending: bool,
    scope: &View,
    area: &mut [u32],
    nodes: &mut Nodes,
    cell: u32,
) -> Result<u32, Refusal>
    requires room { Room cell (3 * size (tree_in exprs.now (expr_row e))) area.old }
    requires nodes_room { NodeRoom key_size nodes.old }
    ensures { KeyPut exprs.now.texts.catalog.now exprs.now.texts.statement.now exprs.now.table.now
        scope.now.labels.now scope.now.matches.now scope.now.tables.now
        e descending cell area.old nodes.old area.new nodes.new result }
{
    let r = e.expr_row();
    let p = build_expression(exprs, r, scope, area, cell)?;
    key(nodes, p - 1, descending);
    Ok(p)
}

// All keys, one after the other.
fn put_keys(
    exprs: &Expressions,
    parts: &[u32],
    scope: &View,
    area: &mut [u32],
    nodes: &mut Nodes,
    cell: u32,
) -> Result<u32, Refusal>
    requires room { Room cell (3 * keys_size (keys_at exprs.now.texts.catalog.now exprs.now.texts.statement.now
        exprs.now.table.now parts.now)) area.old }
    requires nodes_room { NodeRoom (key_size * length (keys_at exprs.now.texts.catalog.now
        exprs.now.texts.statement.now exprs.now.table.now parts.now)) nodes.old }
    ensures { KeysPut exprs.now.texts.catalog.now exprs.now.texts.statement.now exprs.now.table.now parts.now
        scope.now.labels.now scope.now.matches.now scope.now.tables.now
        cell area.old nodes.old area.new nodes.new result }
{
    let keys = entry::count(parts, Section::Order);
    let mut p = cell;
    for i in 0..keys {
        let e = entry_at(parts, Section::Order, i);
        p = put_key(exprs, e, descends(parts, i), scope, area, nodes, p)?;
    }
    Ok(p)
}

// ORDER; without keys nothing is appended.
pub fn build_order(
    exprs: &Expressions,
    parts: &[u32],
    scope: &View,
    area: &mut [u32],
    nodes: &mut Nodes,
    at: Step,
) -> Result<Step, Refusal>
    requires room { Room at.cell (3 * keys_size (keys_at exprs.now.texts.catalog.now exprs.now.texts.statement.now
        exprs.now.table.now parts.now)) area.old }
    requires follows { Follows (source_head + key_size * length (keys_at exprs.now.texts.catalog.now
        exprs.now.texts.statement.now exprs.now.table.now parts.now))
        at.node nodes.old }
    ensures { OrderBuilt exprs.now.texts.catalog.now exprs.now.texts.statement.now exprs.now.table.now parts.now
        scope.now.labels.now scope.now.matches.now scope.now.tables.now
        at.cell at.node area.old nodes.old area.new nodes.new result }
{
    let keys = entry::count(parts, Section::Order);
    if keys == 0 {
        return Ok(at);
    }
    let start = nodes.used;
    begin(nodes, Kind::Order, at.node - 1);
    let cell = put_keys(exprs, parts, scope, area, nodes, at.cell)?;
    end(nodes, start);
    Ok(at.next(cell))
}
