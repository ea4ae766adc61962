// The scope of a projection's items (planner.rs, Scope::project).
ghost use Rattle.std.specs.Prelude.{◌≡◌};
ghost use Rattle.build_project.specs.Labels.{item_labels};
ghost use Rattle.build_project.specs.Ready.{ItemsReady};
ghost use Rattle.build_project.specs.Projected.{ScopeProjected};

use super::rows::item_rows;
use ast::Expressions;
use build_projection::items::Item;
use scope::{COLUMNS, Scope};

// The columns of the items, by their labels, over the same tables; over groups and aggregates, each matched to its
// expression.
pub fn project_scope(
    exprs: &Expressions,
    parts: &[u32],
    items: &[Item],
    labels: &[u32],
    scope: &Scope,
) -> Scope
    requires items_ready { ItemsReady exprs.now.texts.catalog.now exprs.now.texts.statement.now exprs.now.table.now
        parts.now items.now scope.now }
    requires labels_value { labels.now ≡ item_labels exprs.now.texts.catalog.now exprs.now.texts.statement.now
        exprs.now.table.now parts.now scope.now items.now }
    ensures { ScopeProjected exprs.now.texts.catalog.now exprs.now.texts.statement.now exprs.now.table.now parts.now
        items.now scope.now result }
{
    if scope.view().is_matched() {
        let mut rows = [0usize; COLUMNS];
        item_rows(parts, items, &mut rows);
        return scope.project_items(exprs, labels, &rows[..items.len()]);
    }
    scope.project(labels)
}
