// Groups and aggregates of a SELECT, and its projection.
ghost use Rattle.std.specs.Prelude.{map};
ghost use Rattle.appends.specs.Select.Stages.{select_groups};
ghost use Rattle.build_statement.specs.Plans.{Plans};
ghost use Rattle.build_projection.specs.Items.{item_of};
ghost use Rattle.build_select.specs.States.{WhereState};

use super::later::select_later;
use ast::Expressions;
use build_groups::build_groups;
use build_project::build_projection;
use build_projection::items::Item;
use numbers::refusals::Refusal;
use plan::nodes::Nodes;
use plan::steps::Step;
use scope::Scope;

// Groups behind WHERE, then the projection, and all that follows.
pub fn select_groups(
    exprs: &Expressions,
    parts: &[u32],
    items: &[Item],
    scope: &Scope,
    area: &mut [u32],
    nodes: &mut Nodes,
    at: Step,
) -> Result<u32, Refusal>
    requires { WhereState exprs.now.texts.catalog.now exprs.now.texts.statement.now exprs.now.table.now parts.now items.now
        scope.now at area.old nodes.old }
    ensures { (h : WhereState exprs.now.texts.catalog.now exprs.now.texts.statement.now exprs.now.table.now parts.now
        items.now scope.now at area.old nodes.old)
        → Plans (select_groups h.select
        (map (item_of exprs.now.texts.catalog.now exprs.now.texts.statement.now exprs.now.table.now parts.now) items.now)
        h.stage) area.old area.new result }
{
    let grouped = build_groups(exprs, parts, scope, area, nodes, at)?;
    let projected = build_projection(exprs, parts, items, &grouped.scope, area, nodes, grouped.at)?;
    select_later(exprs, parts, &projected.scope, area, nodes, projected.at)
}
