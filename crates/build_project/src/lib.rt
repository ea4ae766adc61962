// The projection of a SELECT (planner.rs, build_select): its items, and the columns that HAVING and ORDER BY call for and
// the items lack.
#![tactic(auto)]

mod hidden; // hidden.rt: the hidden columns' cells and parts
mod lone; // lone.rt: a star that stands alone
mod projected; // projected.rt: the projected scope
mod rows; // rows.rt: the rows of the items

ghost use Rattle.std.specs.Prelude.{List, map, ℕ};
ghost use Rattle.rules.specs.BuildSelect.{later_of, build_projection};
ghost use Rattle.appends.specs.From.Laid.{stage_of};
ghost use Rattle.ast.specs.Expressions.{tree_in};
ghost use Rattle.scope.specs.Scopes.{scope_of};
ghost use Rattle.statement.specs.Access.{select_at};
ghost use Rattle.stage.specs.Stages.{StageBuilt};
ghost use Rattle.build_projection.specs.Items.{item_of};
ghost use Rattle.build_project.specs.Ready.{ProjectionReady};

use ast::Expressions;
use build_projection::items::Item;
use build_projection::projection::put_items;
use hidden::put_hidden;
use lone::is_lone;
use numbers::refusals::Refusal;
use plan::nodes::{Kind, Nodes};
use plan::parts::{begin, end};
use plan::steps::Step;
use scope::{COLUMNS, Scope};
use stage::Stage;

// The items over the node before: nothing for a lone star.
pub fn build_projection(
    exprs: &Expressions,
    parts: &[u32],
    items: &[Item],
    scope: &Scope,
    area: &mut [u32],
    nodes: &mut Nodes,
    at: Step,
) -> Result<Stage, Refusal>
    requires { ProjectionReady exprs.now.texts.catalog.now exprs.now.texts.statement.now exprs.now.table.now parts.now
        items.now scope.now at.cell at.node area.old nodes.old }
    ensures { (froms : List ℕ) → StageBuilt exprs.now.texts.catalog.now exprs.now.texts.statement.now exprs.now.table.now
        (λ d. build_projection
        (stage_of d (scope_of (tree_in exprs.now)
        exprs.now.texts.catalog.now exprs.now.texts.statement.now scope.now))
        (map (item_of exprs.now.texts.catalog.now exprs.now.texts.statement.now exprs.now.table.now parts.now)
        items.now)
        (later_of (select_at exprs.now.texts.catalog.now exprs.now.texts.statement.now exprs.now.table.now froms
        parts.now))) at.cell at.node area.old nodes.old area.new nodes.new result }
{
    if is_lone(exprs.table, parts, items) {
        return Ok(Stage { scope: *scope, at });
    }
    let start = nodes.used;
    begin(nodes, Kind::Project, at.node - 1);
    let mut labels = [0u32; COLUMNS];
    let cell = put_items(
        exprs,
        parts,
        items,
        &scope.view(),
        area,
        nodes,
        at.cell,
        &mut labels,
    )?;
    let labels = &labels[..items.len()];
    let widened = put_hidden(exprs, parts, items, labels, scope, area, nodes, cell)?;
    end(nodes, start);
    Ok(Stage {
        scope: widened,
        at: at.next(cell + widened.hidden),
    })
}
