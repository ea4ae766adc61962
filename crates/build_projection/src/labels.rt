// The labels of a projection's items (planner.rs, Scope::project).
ghost use Rattle.std.specs.Prelude.{◌≡◌, ◌+◌, get_or};
ghost use Rattle.rules.specs.Lists.{Bytes};
ghost use Rattle.ast.specs.Table.{tree_at};
ghost use Rattle.plan.specs.Layout.{cells_end};
ghost use Rattle.scope.specs.UsedMatches.{some_match};
ghost use Rattle.build_projection.specs.Labels.{label_number, cell_label, ItemStands};

use crate::items::Item;
use crate::projection::{alias_at, item_row};
use ast::Expressions;
use ast::row::{Kind, kind_of};
use numbers::number;
use plan::{CELL_SIZE, HEADER_SIZE};
use scope::expressions::label_of;
use scope::labels::label;
use scope::view::View;

// The position of the column that cell n of a plan is.
fn position(area: &[u32], n: u32) -> usize
    ensures { result ≡ get_or area.now (cells_end n + 1) 0 }
{
    number(area, HEADER_SIZE + CELL_SIZE * n as usize + 1) as usize
}

// The label of the column that cell n of a plan is, which was built of row r; 0 where row r is no column name.
fn cell_label(table: &[u32], r: usize, labels: &[u32], area: &[u32], n: u32) -> u32
    ensures { (c q : Bytes) → result ≡ cell_label labels.now area.now n (tree_at c q table.now r) }
{
    match kind_of(table, r) {
        Kind::Column | Kind::Qualified => number(labels, position(area, n)),
        _ => 0,
    }
}

// The label of item x, which stands in the plan from the n-th cell on: its alias, or what its expression passes on. Where
// nothing is matched to the scope's columns, a column was looked up by its name, and its position stands in its cell.
pub fn item_label(
    exprs: &Expressions,
    parts: &[u32],
    x: Item,
    scope: &View,
    matched: bool,
    area: &[u32],
    n: u32,
) -> u32
    requires matched_value { matched ≡ some_match scope.now.matches.now }
    requires item_stands { ItemStands exprs.now.texts.catalog.now exprs.now.texts.statement.now exprs.now.table.now
        parts.now scope.now.labels.now scope.now.matches.now
        scope.now.tables.now x n area.now }
    ensures { result ≡ label_number exprs.now.texts.catalog.now exprs.now.texts.statement.now exprs.now.table.now parts.now
        scope.now.labels.now scope.now.matches.now scope.now.tables.now x }
{
    if let Some(alias) = alias_at(&exprs.texts, parts, x)
        && alias.length != 0
    {
        return label(0, alias);
    }
    let r = item_row(parts, x);
    if !matched {
        return cell_label(exprs.table, r, scope.labels, area, n);
    }
    label_of(exprs, scope, r)
}
