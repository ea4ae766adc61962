// FROM as a whole: its items joined one after the other.
ghost use Rattle.std.specs.Prelude.{◌≡◌, ℕ, ◌≤◌, List, [], length, Ok};
ghost use Rattle.rules.specs.Lists.{Bytes};
ghost use Rattle.from.specs.Layout.{from_at, froms_at};
ghost use Rattle.plan.specs.Layout.{empty_row_size};
ghost use Rattle.build_from.specs.Later.{LaterRoom, LaterBuilds};
ghost use Rattle.build_from.specs.Clause.{ClauseRoom, ClauseBuilds};

use crate::build_from;
use crate::merges::merge_scopes;
use ast::Expressions;
use from::roots;
use numbers::refusals::Refusal;
use plan::nodes::{self, Nodes};
use plan::steps::Step;
use scope::Scope;
use stage::Stage;

// The item in row r behind the clause a: its scope merged into the clause's, and the cross join of both.
#[tactic(auto, unfolding(rules::specs::Area::option_number))]
fn join_item(
    exprs: &Expressions,
    tables: &[u32],
    froms: &[u32],
    r: u32,
    a: Stage,
    area: &mut [u32],
    nodes: &mut Nodes,
) -> Result<Stage, Refusal>
    requires { LaterRoom exprs.now.texts.catalog.now exprs.now.texts.statement.now tables.now
        (from_at exprs.now.texts.catalog.now exprs.now.texts.statement.now exprs.now.table.now froms.now r) a area.old
        nodes.old }
    ensures { LaterBuilds exprs.now.texts.catalog.now exprs.now.texts.statement.now tables.now exprs.now.table.now
        (from_at exprs.now.texts.catalog.now exprs.now.texts.statement.now exprs.now.table.now froms.now r) a
        area.old nodes.old area.new nodes.new result }
{
    let b = build_from(exprs, tables, froms, r, area, nodes, a.at)?;
    let s = merge_scopes(&exprs.texts, a.scope, &b.scope, b.line)?;
    nodes::join(nodes, a.at.node - 1, b.at.node - 1, false, None);
    Ok(Stage {
        scope: s,
        at: b.at.next(b.at.cell),
    })
}

// No items: one row of no columns.
fn empty_clause(nodes: &mut Nodes) -> Stage
    requires none { nodes.old.used ≡ 0 }
    requires room { empty_row_size ≤ length nodes.old.numbers.now }
    ensures { (c q : Bytes) (ts cells area : List ℕ) → ClauseBuilds c q ts cells [] area nodes.old
        area nodes.new (Ok result) }
{
    nodes::empty_row(nodes);
    Stage {
        scope: Scope::new(),
        at: Step { cell: 0, node: 1 },
    }
}

// The items in the first `rows` rows of FROM, from the first cell and the first node on.
pub fn build_from_clause(
    exprs: &Expressions,
    tables: &[u32],
    froms: &[u32],
    rows: u32,
    area: &mut [u32],
    nodes: &mut Nodes,
) -> Result<Stage, Refusal>
    requires { ClauseRoom exprs.now.texts.catalog.now exprs.now.texts.statement.now tables.now
        (froms_at exprs.now.texts.catalog.now exprs.now.texts.statement.now exprs.now.table.now froms.now rows) area.old
        nodes.old }
    ensures { ClauseBuilds exprs.now.texts.catalog.now exprs.now.texts.statement.now tables.now exprs.now.table.now
        (froms_at exprs.now.texts.catalog.now exprs.now.texts.statement.now exprs.now.table.now froms.now rows)
        area.old nodes.old area.new nodes.new result }
{
    let count = roots::items(froms, rows);
    if count == 0 {
        return Ok(empty_clause(nodes));
    }
    let first = roots::root(froms, rows, 0);
    let at = Step { cell: 0, node: 0 };
    let source = build_from(exprs, tables, froms, first, area, nodes, at)?;
    let mut clause = Stage {
        scope: source.scope,
        at: source.at,
    };
    for i in 1..count {
        let r = roots::root(froms, rows, i);
        clause = join_item(exprs, tables, froms, r, clause, area, nodes)?;
    }
    Ok(clause)
}
