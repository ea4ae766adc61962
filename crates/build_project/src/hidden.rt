// The hidden columns behind a projection's items: the scope with them, their cells and their parts of its record.
ghost use Rattle.std.specs.Prelude.{◌≡◌, ◌*◌, length};
ghost use Rattle.plan.specs.Layout.{item_size};
ghost use Rattle.plan.specs.Pushed.{NodeRoom};
ghost use Rattle.plan.specs.Cells.{Room};
ghost use Rattle.build_project.specs.Labels.{item_labels};
ghost use Rattle.build_project.specs.Hidden.{ColumnsPut};
ghost use Rattle.build_project.specs.Widens.{HiddenReady, HiddenPut};

use super::projected::project_scope;
use ast::Expressions;
use build_hidden::build_select_hidden;
use build_projection::items::Item;
use numbers::refusals::Refusal;
use plan::cells::column;
use plan::nodes::Nodes;
use plan::parts::item;
use scope::{COLUMNS, Scope};

// The columns at some positions: their cells from the first on, and their parts of a record.
fn put_columns(positions: &[u32], area: &mut [u32], nodes: &mut Nodes, first: u32)
    requires room { Room first (length positions.now) area.old }
    requires nodes_room { NodeRoom (item_size * length positions.now) nodes.old }
    ensures { ColumnsPut positions.now first area.old area.new nodes.old nodes.new }
{
    for (i, &x) in positions.iter().enumerate() {
        let cell = first + i as u32;
        column(area, cell, x);
        item(nodes, cell, None);
    }
}

// Behind a projection's items, by their labels: its scope with the hidden columns, and their cells and parts. Refused where
// they are too many.
pub fn put_hidden(
    exprs: &Expressions,
    parts: &[u32],
    items: &[Item],
    labels: &[u32],
    scope: &Scope,
    area: &mut [u32],
    nodes: &mut Nodes,
    cell: u32,
) -> Result<Scope, Refusal>
    requires hidden_ready { HiddenReady exprs.now.texts.catalog.now exprs.now.texts.statement.now exprs.now.table.now
        parts.now items.now scope.now cell area.old nodes.old }
    requires labels_value { labels.now ≡ item_labels exprs.now.texts.catalog.now exprs.now.texts.statement.now
        exprs.now.table.now parts.now scope.now items.now }
    ensures { HiddenPut exprs.now.texts.catalog.now exprs.now.texts.statement.now exprs.now.table.now parts.now
        items.now scope.now cell area.old area.new nodes.old nodes.new result }
{
    let child = project_scope(exprs, parts, items, labels, scope);
    let mut positions = [0u32; COLUMNS];
    let widened = build_select_hidden(exprs, parts, &scope.view(), child, &mut positions)?;
    put_columns(&positions[..widened.hidden as usize], area, nodes, cell);
    Ok(widened)
}
