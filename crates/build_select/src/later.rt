// HAVING and ORDER of a SELECT, over the projected scope.
ghost use Rattle.appends.specs.Select.Stages.{select_having};
ghost use Rattle.build_statement.specs.Plans.{Plans};
ghost use Rattle.build_select.specs.States.{ProjectionState};

use super::ends::select_offset;
use ast::Expressions;
use build_clauses::filters::build_having;
use build_clauses::orders::build_order;
use entries::Section;
use numbers::refusals::Refusal;
use plan::nodes::Nodes;
use plan::steps::Step;
use scope::Scope;
use statement::access::clause_at;

// HAVING behind the projection, then ORDER, and all that follows.
pub fn select_later(
    exprs: &Expressions,
    parts: &[u32],
    scope: &Scope,
    area: &mut [u32],
    nodes: &mut Nodes,
    at: Step,
) -> Result<u32, Refusal>
    requires { ProjectionState exprs.now.texts.catalog.now exprs.now.texts.statement.now exprs.now.table.now parts.now
        scope.now at area.old nodes.old }
    ensures { (h : ProjectionState exprs.now.texts.catalog.now exprs.now.texts.statement.now exprs.now.table.now
        parts.now scope.now at area.old nodes.old)
        → Plans (select_having h.select h.stage) area.old area.new result }
{
    let clause = clause_at(parts, Section::Having);
    let view = scope.view();
    let having = build_having(exprs, clause, &view, area, nodes, at)?;
    let order = build_order(exprs, parts, &view, area, nodes, having)?;
    select_offset(exprs, parts, scope, area, nodes, order)
}
