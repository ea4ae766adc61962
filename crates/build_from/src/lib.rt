// FROM planned (planner.rs, build_from_clause and build_from): the scope of each item, its cells and its node records.
#![tactic(auto)]

pub mod clause; // clause.rt: FROM as a whole
pub mod joins; // joins.rt: a join from its sides
pub mod merges; // merges.rt: the scopes of a join's sides, merged
pub mod predicates; // predicates.rt: a join's predicate
mod remaps; // remaps.rt: a right join's columns swapped back
pub mod rows; // rows.rt: a join's sides, and whether it is outer or right
mod tables; // tables.rt: a table of FROM

ghost use Rattle.from.specs.Layout.{from_at};
ghost use Rattle.build_from.specs.Sources.{ItemRoom, Builds};

use ast::Expressions;
use numbers::refusals::Refusal;
use plan::nodes::Nodes;
use plan::steps::Step;
use rows::rows_of;
use scope::Scope;

// A FROM item: its scope, its line, and how far building came.
#[derive(Clone, Copy, Debug, PartialEq, Eq)]
pub struct Source {
    pub scope: Scope,
    pub line: u32,
    pub at: Step,
}

// The item in row r of FROM behind a step: a scan, or a join of the items in two rows before it.
pub fn build_from(
    exprs: &Expressions,
    tables: &[u32],
    froms: &[u32],
    r: u32,
    area: &mut [u32],
    nodes: &mut Nodes,
    at: Step,
) -> Result<Source, Refusal>
    requires { ItemRoom exprs.now.texts.catalog.now exprs.now.texts.statement.now tables.now
        (from_at exprs.now.texts.catalog.now exprs.now.texts.statement.now exprs.now.table.now froms.now r) at area.old
        nodes.old }
    ensures { Builds exprs.now.texts.catalog.now exprs.now.texts.statement.now tables.now exprs.now.table.now
        (from_at exprs.now.texts.catalog.now exprs.now.texts.statement.now exprs.now.table.now froms.now r) at
        area.old nodes.old area.new nodes.new result }
{
    match rows_of(froms, r) {
        None => tables::build_table(exprs, tables, froms, r, nodes, at),
        Some(side) => {
            let first = build_from(exprs, tables, froms, side.first, area, nodes, at);
            // A match, since ? would hold a scope of 1.6 KB once more in each frame of the recursion.
            let a = match first {
                Ok(a) => a,
                Err(refusal) => return Err(refusal),
            };
            let second = build_from(exprs, tables, froms, side.second, area, nodes, a.at);
            match second {
                Ok(b) => joins::build_join(exprs, froms, r, a, b, area, nodes),
                Err(refusal) => Err(refusal),
            }
        }
    }
}
