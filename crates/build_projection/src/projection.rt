// The items of a projection: their cells, and their parts of its node record (planner.rs, build_select).
ghost use Rattle.std.specs.Prelude.{◌≡◌, ◌*◌, length};
ghost use Rattle.rules.specs.Limits.{most_columns};
ghost use Rattle.rules.specs.Ast.{size};
ghost use Rattle.plan.specs.Cells.{Room};
ghost use Rattle.plan.specs.Layout.{item_size};
ghost use Rattle.plan.specs.Pushed.{NodeRoom};
ghost use Rattle.build_projection.specs.Items.{item_of};
ghost use Rattle.build_projection.specs.Aliases.{row_of, alias_place};
ghost use Rattle.build_projection.specs.Labels.{label_number};
ghost use Rattle.build_projection.specs.Pushes.{ItemPut, ItemsFit, ItemsPut, Labelled};

use crate::items::Item;
use crate::labels::item_label;
use ast::Expressions;
use build_expression::build_item;
use entries::Section;
use numbers::refusals::Refusal;
use plan::nodes::Nodes;
use plan::parts::item;
use scope::view::View;
use sections::entry::entry_at;
use text::places::{Place, Texts};

// The row of item x.
pub fn item_row(parts: &[u32], x: Item) -> usize
    ensures { result ≡ row_of parts.now x }
{
    match x {
        Item::Entry(k) => {
            let e = entry_at(parts, Section::Item, k);
            e.expr_row()
        }
        Item::Starred(r) => r as usize,
    }
}

// The place of its alias, as many bytes of it as there are.
pub(crate) fn alias_at(texts: &Texts, parts: &[u32], x: Item) -> Option<Place>
    ensures { result ≡ alias_place texts.now.catalog.now texts.now.statement.now parts.now x }
{
    match x {
        Item::Entry(k) => {
            let e = entry_at(parts, Section::Item, k);
            texts.clipped_option(e.name)
        }
        Item::Starred(_) => None,
    }
}

// Item x: its cells, and its part of the record. Gives the next cell.
fn put_item(
    exprs: &Expressions,
    parts: &[u32],
    x: Item,
    scope: &View,
    area: &mut [u32],
    nodes: &mut Nodes,
    cell: u32,
) -> Result<u32, Refusal>
    requires room { Room cell (3 * size (item_of exprs.now.texts.catalog.now exprs.now.texts.statement.now
        exprs.now.table.now parts.now x).expr) area.old }
    requires nodes_room { NodeRoom item_size nodes.old }
    ensures { ItemPut exprs.now.texts.catalog.now exprs.now.texts.statement.now exprs.now.table.now parts.now
        scope.now.labels.now scope.now.matches.now scope.now.tables.now
        x cell area.old area.new nodes.old nodes.new result }
{
    let row = item_row(parts, x);
    let next = build_item(exprs, row, scope, area, cell)?;
    let alias = alias_at(&exprs.texts, parts, x);
    item(nodes, next - 1, alias);
    Ok(next)
}

// All items, one after the other, and the label of each. Gives the next cell.
pub fn put_items(
    exprs: &Expressions,
    parts: &[u32],
    items: &[Item],
    scope: &View,
    area: &mut [u32],
    nodes: &mut Nodes,
    cell: u32,
    projected: &mut [u32],
) -> Result<u32, Refusal>
    requires projected_len { length projected.old ≡ most_columns }
    requires items_fit { ItemsFit exprs.now.texts.catalog.now exprs.now.texts.statement.now exprs.now.table.now parts.now
        items.now cell area.old nodes.old }
    ensures items_put { ItemsPut exprs.now.texts.catalog.now exprs.now.texts.statement.now exprs.now.table.now parts.now
        scope.now.labels.now scope.now.matches.now scope.now.tables.now
        items.now cell area.old area.new nodes.old nodes.new result }
    ensures labelled { Labelled (label_number exprs.now.texts.catalog.now exprs.now.texts.statement.now exprs.now.table.now
        parts.now
        scope.now.labels.now scope.now.matches.now scope.now.tables.now)
        items.now projected.old projected.new result }
{
    let used = scope.used();
    let matched = !used.matches.is_empty();
    let mut m = cell;
    // By index: of what a zip with `iter_mut` writes, only the length is known behind the loop.
    for (i, &x) in items.iter().enumerate() {
        let next = put_item(exprs, parts, x, &used, area, nodes, m)?;
        projected[i] = item_label(exprs, parts, x, scope, matched, area, m);
        m = next;
    }
    Ok(m)
}
