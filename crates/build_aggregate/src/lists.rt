// The groups and the functions of an aggregate node, by the rows of their expressions: cells in the area, and numbers in
// the node's record.
ghost use Rattle.std.specs.Prelude.{◌*◌, length};
ghost use Rattle.rules.specs.Ast.{size};
ghost use Rattle.rules.specs.Sizes.{total};
ghost use Rattle.ast.specs.Expressions.{tree_in};
ghost use Rattle.plan.specs.Layout.{function_size};
ghost use Rattle.plan.specs.Pushed.{NodeRoom};
ghost use Rattle.plan.specs.Cells.{Room};
ghost use Rattle.build_aggregate.specs.Entries.{Adds, AddsAll};
ghost use Rattle.build_aggregate.specs.Kinds.{groups_listing, functions_listing};

use crate::function::build_function;
use ast::walk::called;
use ast::{Expressions, row};
use build_expression::build_expression;
use numbers::refusals::{Reason, Refusal};
use plan::nodes::Nodes;
use plan::parts::function;
use scope::view::View;

// How many numbers a function has in the record.
pub const FUNCTION_SIZE: usize = 2;

// The group at row r.
fn add_group(
    exprs: &Expressions,
    r: usize,
    scope: &View,
    area: &mut [u32],
    nodes: &mut Nodes,
    cell: u32,
) -> Result<u32, Refusal>
    requires room { Room cell (3 * size (tree_in exprs.now r)) area.old }
    requires nodes_room { NodeRoom 1 nodes.old }
    ensures { Adds (groups_listing exprs.now.texts.catalog.now exprs.now.texts.statement.now exprs.now.table.now
        scope.now.labels.now scope.now.matches.now scope.now.tables.now)
        (tree_in exprs.now r)
        cell area.old area.new nodes.old nodes.new result }
{
    let m = build_expression(exprs, r, scope, area, cell)?;
    nodes.push(m - 1);
    Ok(m)
}

// The function at row r.
fn add_function(
    exprs: &Expressions,
    r: usize,
    scope: &View,
    area: &mut [u32],
    nodes: &mut Nodes,
    cell: u32,
) -> Result<u32, Refusal>
    requires room { Room cell (3 * size (tree_in exprs.now r)) area.old }
    requires nodes_room { NodeRoom function_size nodes.old }
    ensures { Adds (functions_listing exprs.now.texts.catalog.now exprs.now.texts.statement.now exprs.now.table.now
        scope.now.labels.now scope.now.matches.now scope.now.tables.now)
        (tree_in exprs.now r)
        cell area.old area.new nodes.old nodes.new result }
{
    let Some(aggregate) = called(exprs, r) else {
        return Err(Reason::UnknownFunction.at(row::line(exprs.table, r)));
    };
    let m = build_function(exprs, r, scope, aggregate, area, cell)?;
    function(nodes, aggregate, m - 1);
    Ok(m)
}

// The groups at the rows.
pub fn build_groups(
    exprs: &Expressions,
    rows: &[usize],
    scope: &View,
    area: &mut [u32],
    nodes: &mut Nodes,
    cell: u32,
) -> Result<u32, Refusal>
    requires room { Room cell (3 * total (λ r. size (tree_in exprs.now r)) rows.now) area.old }
    requires nodes_room { NodeRoom (length rows.now) nodes.old }
    ensures { AddsAll (groups_listing exprs.now.texts.catalog.now exprs.now.texts.statement.now exprs.now.table.now
        scope.now.labels.now scope.now.matches.now scope.now.tables.now)
        (tree_in exprs.now) rows.now
        cell area.old area.new nodes.old nodes.new result }
{
    let mut m = cell;
    for &r in rows {
        m = add_group(exprs, r, scope, area, nodes, m)?;
    }
    Ok(m)
}

// The functions at the rows. (A loop of its own: one over a closure would need a contract for the closure, to share three
// lines.)
pub fn build_functions(
    exprs: &Expressions,
    rows: &[usize],
    scope: &View,
    area: &mut [u32],
    nodes: &mut Nodes,
    cell: u32,
) -> Result<u32, Refusal>
    requires room { Room cell (3 * total (λ r. size (tree_in exprs.now r)) rows.now) area.old }
    requires nodes_room { NodeRoom (function_size * length rows.now) nodes.old }
    ensures { AddsAll (functions_listing exprs.now.texts.catalog.now exprs.now.texts.statement.now exprs.now.table.now
        scope.now.labels.now scope.now.matches.now scope.now.tables.now)
        (tree_in exprs.now) rows.now
        cell area.old area.new nodes.old nodes.new result }
{
    let mut m = cell;
    for &r in rows {
        m = add_function(exprs, r, scope, area, nodes, m)?;
    }
    Ok(m)
}
