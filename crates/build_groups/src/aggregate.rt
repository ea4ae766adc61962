// The aggregate stage over the rows of its groups and functions (planner.rs, build_aggregate).
ghost use Rattle.std.specs.Prelude.{ℕ, List, map};
ghost use Rattle.ast.specs.Expressions.{tree_in};
ghost use Rattle.stage.specs.Stages.{StageBuilt};
ghost use Rattle.build_groups.specs.Terms.{AggregateReady, KeptReady, RowsKept};
ghost use Rattle.build_groups.specs.Stages.{groups_stage, StageOver};

use ast::Expressions;
use ast::buffer::Rows;
use ast::rows::STATEMENT_ROWS;
use build_aggregate::node::build_node;
use numbers::refusals::Refusal;
use plan::nodes::Nodes;
use plan::steps::Step;
use scope::Scope;
use scope::retain::retain;
use sections::ENTRIES;
use stage::Stage;

// The most groups: each is an entry.
pub const GROUPS: usize = ENTRIES as usize;

// The most functions: each has a row of the statement.
pub const FUNCTIONS: usize = STATEMENT_ROWS as usize;

// The aggregate node over the node before it, by the rows that are retained, those of groups first, and its scope.
fn build_retained(
    exprs: &Expressions,
    rows: &[usize],
    groups: usize,
    scope: &Scope,
    area: &mut [u32],
    nodes: &mut Nodes,
    at: Step,
) -> Result<Stage, Refusal>
    requires { KeptReady exprs.now.texts.catalog.now exprs.now.texts.statement.now exprs.now.table.now scope.now
        rows.now groups at.cell at.node area.old nodes.old }
    ensures { (gs fs : List ℕ) → RowsKept (tree_in exprs.now) gs fs rows.now groups
        → StageOver exprs.now.texts.catalog.now exprs.now.texts.statement.now exprs.now.table.now scope.now gs fs
        at.cell at.node area.old nodes.old area.new nodes.new result }
{
    let source = at.node - 1;
    let cell = build_node(
        exprs,
        &rows[..groups],
        &rows[groups..],
        &scope.view(),
        source,
        area,
        nodes,
        at.cell,
    )?;
    let child = scope.add_aggregates(exprs, rows);
    Ok(Stage {
        scope: child,
        at: at.next(cell),
    })
}

// The aggregate stage over the rows of groups and of functions, one at least.
pub fn build_aggregate(
    exprs: &Expressions,
    groups: &[usize],
    functions: &[usize],
    scope: &Scope,
    area: &mut [u32],
    nodes: &mut Nodes,
    at: Step,
) -> Result<Stage, Refusal>
    requires { AggregateReady exprs.now.texts.catalog.now exprs.now.texts.statement.now exprs.now.table.now scope.now
        groups.now functions.now at.cell at.node area.old nodes.old }
    ensures { StageBuilt exprs.now.texts.catalog.now exprs.now.texts.statement.now exprs.now.table.now
        (groups_stage exprs.now.texts.catalog.now exprs.now.texts.statement.now exprs.now.table.now scope.now
        (map (tree_in exprs.now) groups.now) (map (tree_in exprs.now) functions.now))
        at.cell at.node area.old nodes.old area.new nodes.new result }
{
    let mut rows = [0usize; GROUPS + FUNCTIONS];
    let mut kept = Rows::new(&mut rows);
    retain(exprs, groups, &mut kept);
    let kept_groups = kept.used;
    retain(exprs, functions, &mut kept);
    build_retained(exprs, kept.listed(), kept_groups, scope, area, nodes, at)
}
