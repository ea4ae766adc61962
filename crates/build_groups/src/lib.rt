// The groups and the aggregates of a SELECT (planner.rs, build_select and build_aggregate).
#![tactic(auto)]

mod aggregate; // aggregate.rt: the aggregate stage over rows
mod rows; // rows.rt: the rows of groups and functions

ghost use Rattle.build_groups.specs.Rows.{groups_at, functions_at};
ghost use Rattle.build_groups.specs.Terms.{GroupsReady};
ghost use Rattle.build_groups.specs.Stages.{GroupsBuilt};

use aggregate::{FUNCTIONS, GROUPS, build_aggregate};
use ast::Expressions;
use ast::buffer::Rows;
use numbers::refusals::Refusal;
use plan::nodes::Nodes;
use plan::steps::Step;
use rows::{function_rows, group_rows};
use scope::Scope;
use stage::Stage;

// Groups and aggregates over the node before them; where there are none, all is as it was.
pub fn build_groups(
    exprs: &Expressions,
    parts: &[u32],
    scope: &Scope,
    area: &mut [u32],
    nodes: &mut Nodes,
    at: Step,
) -> Result<Stage, Refusal>
    requires { GroupsReady exprs.now.texts.catalog.now exprs.now.texts.statement.now exprs.now.table.now parts.now
        scope.now at.cell at.node area.old nodes.old }
    ensures { GroupsBuilt exprs.now.texts.catalog.now exprs.now.texts.statement.now exprs.now.table.now scope.now
        (groups_at exprs.now.texts.catalog.now exprs.now.texts.statement.now exprs.now.table.now parts.now)
        (functions_at exprs.now.texts.catalog.now exprs.now.texts.statement.now exprs.now.table.now parts.now)
        at.cell at.node area.old nodes.old area.new nodes.new result }
{
    let mut rows = [0usize; GROUPS];
    let mut groups = Rows::new(&mut rows);
    group_rows(parts, &mut groups);
    let mut rows = [0usize; FUNCTIONS];
    let mut functions = Rows::new(&mut rows);
    function_rows(exprs, parts, &mut functions);
    if groups.used + functions.used == 0 {
        return Ok(Stage { scope: *scope, at });
    }
    build_aggregate(
        exprs,
        groups.listed(),
        functions.listed(),
        scope,
        area,
        nodes,
        at,
    )
}
