// OFFSET, LIMIT, the last remap and the end of a SELECT's plan.
ghost use Rattle.std.specs.Prelude.{Ok};
ghost use Rattle.appends.specs.Select.Stages.{select_offset, select_limit, select_remap};
ghost use Rattle.build_statement.specs.Plans.{Plans};
ghost use Rattle.build_select.specs.States.{OrderState, OffsetState, LimitState};

use ast::Expressions;
use build_clauses::remaps::build_remap;
use build_clauses::rows::{build_limit, build_offset};
use entries::Section;
use numbers::refusals::Refusal;
use plan::finish::Kind;
use plan::nodes::Nodes;
use plan::steps::Step;
use scope::Scope;
use statement::access::clause_at;

// The remap that drops hidden columns, and the end.
fn select_remap(scope: &Scope, area: &mut [u32], nodes: &mut Nodes, at: Step) -> u32
    requires { LimitState scope.now at area.old nodes.old }
    ensures { (h : LimitState scope.now at area.old nodes.old)
        → Plans (select_remap h.select h.stage h.node) area.old area.new (Ok result) }
{
    let remapped = build_remap(scope, nodes, at);
    let own = nodes.used;
    nodes.finish(area, Kind::Select, remapped, own);
    remapped.cell
}

// LIMIT behind OFFSET, and all that follows.
fn select_limit(
    exprs: &Expressions,
    parts: &[u32],
    scope: &Scope,
    area: &mut [u32],
    nodes: &mut Nodes,
    at: Step,
) -> Result<u32, Refusal>
    requires { OffsetState exprs.now.texts.catalog.now exprs.now.texts.statement.now exprs.now.table.now parts.now
        scope.now at area.old nodes.old }
    ensures { (h : OffsetState exprs.now.texts.catalog.now exprs.now.texts.statement.now exprs.now.table.now parts.now
        scope.now at area.old nodes.old)
        → Plans (select_limit h.select h.stage h.node) area.old area.new result }
{
    let clause = clause_at(parts, Section::Limit);
    let limited = build_limit(exprs, clause, nodes, at)?;
    Ok(select_remap(scope, area, nodes, limited))
}

// OFFSET behind ORDER, and all that follows.
pub fn select_offset(
    exprs: &Expressions,
    parts: &[u32],
    scope: &Scope,
    area: &mut [u32],
    nodes: &mut Nodes,
    at: Step,
) -> Result<u32, Refusal>
    requires { OrderState exprs.now.texts.catalog.now exprs.now.texts.statement.now exprs.now.table.now parts.now
        scope.now at area.old nodes.old }
    ensures { (h : OrderState exprs.now.texts.catalog.now exprs.now.texts.statement.now exprs.now.table.now parts.now
        scope.now at area.old nodes.old)
        → Plans (select_offset h.select h.stage h.node) area.old area.new result }
{
    let clause = clause_at(parts, Section::Offset);
    let skipped = build_offset(exprs, clause, nodes, at)?;
    select_limit(exprs, parts, scope, area, nodes, skipped)
}
