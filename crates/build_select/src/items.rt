// The items of a SELECT over FROM's scope, and WHERE.
ghost use Rattle.std.specs.Prelude.{map};
ghost use Rattle.appends.specs.Select.Stages.{select_items, select_where};
ghost use Rattle.statement.specs.Access.{select_at};
ghost use Rattle.build_statement.specs.Plans.{Plans};
ghost use Rattle.build_projection.specs.Items.{item_of};
ghost use Rattle.build_select.specs.States.{FromState, ItemsState};

use super::groups::select_groups;
use ast::Expressions;
use ast::rows::TABLE_SIZE;
use build_clauses::filters::build_where;
use build_projection::items::{Item, build_items};
use entries::Section;
use numbers::first;
use numbers::refusals::Refusal;
use plan::nodes::Nodes;
use plan::steps::Step;
use scope::{COLUMNS, Scope};
use statement::access::clause_at;
use text::places::Texts;

// WHERE behind FROM and the items, and all that follows.
fn select_where(
    exprs: &Expressions,
    parts: &[u32],
    items: &[Item],
    scope: &Scope,
    area: &mut [u32],
    nodes: &mut Nodes,
    at: Step,
) -> Result<u32, Refusal>
    requires { ItemsState exprs.now.texts.catalog.now exprs.now.texts.statement.now exprs.now.table.now parts.now
        items.now scope.now at area.old nodes.old }
    ensures { (h : ItemsState exprs.now.texts.catalog.now exprs.now.texts.statement.now exprs.now.table.now parts.now
        items.now scope.now at area.old nodes.old)
        → Plans (select_where h.select h.stage
        (map (item_of exprs.now.texts.catalog.now exprs.now.texts.statement.now exprs.now.table.now parts.now)
        items.now))
        area.old area.new result }
{
    let clause = clause_at(parts, Section::Where);
    let filtered = build_where(exprs, clause, &scope.view(), area, nodes, at)?;
    select_groups(exprs, parts, items, scope, area, nodes, filtered)
}

// The items behind FROM, stars expanded, and all that follows.
pub fn select_items(
    texts: &Texts,
    cells: &mut [u32; TABLE_SIZE],
    parts: &[u32],
    scope: &Scope,
    area: &mut [u32],
    nodes: &mut Nodes,
    at: Step,
) -> Result<u32, Refusal>
    requires { FromState texts.now.catalog.now texts.now.statement.now cells.old parts.now scope.now at
        area.old nodes.old }
    ensures { (h : FromState texts.now.catalog.now texts.now.statement.now cells.old parts.now
        scope.now at area.old nodes.old)
        → Plans (select_items
        (select_at texts.now.catalog.now texts.now.statement.now cells.old h.froms parts.now)
        h.stage) area.old area.new result }
{
    let mut items = [Item::Entry(0); COLUMNS];
    let view = scope.view();
    let count = build_items(cells, parts, view.tables, view.labels, &mut items)?;
    let listed = first(&items, count);
    select_where(
        &Expressions {
            texts: *texts,
            table: cells,
        },
        parts,
        listed,
        scope,
        area,
        nodes,
        at,
    )
}
