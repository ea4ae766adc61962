// A table of FROM: its scope under its alias or its name, and its scan.
ghost use Rattle.std.specs.Prelude.{List, ℕ, ◌+◌, ◌<◌, ◌^◌};
ghost use Rattle.plan.specs.Layout.{scan_size};
ghost use Rattle.build_from.specs.Sources.{ItemRoom, Builds};
ghost use Rattle.build_from.specs.Tables.{table_row, FromNamed, Scanned};
ghost use Rattle.plan.specs.Pushed.{NodeRoom};

use crate::Source;
use ast::Expressions;
use from::row;
use numbers::refusals::Refusal;
use plan::nodes::{self, Nodes};
use plan::steps::Step;
use schema::find_table;
use scope::Scope;
use text::places::Texts;

// The scope of the catalog's i-th table under the alias of row r, or its name.
fn named_scope(tables: &[u32], froms: &[u32], r: u32, i: u32) -> Scope
    ensures { FromNamed tables.now froms.now r i result }
{
    let name = row::alias(froms, r).unwrap_or(row::name(froms, r));
    Scope::from_table(tables, i, name)
}

// The scan of the table in row r.
#[tactic(auto, unfolding(rules::specs::Area::option_number))]
fn scan_row(texts: &Texts, froms: &[u32], r: u32, nodes: &mut Nodes)
    requires { NodeRoom scan_size nodes.old }
    ensures { Scanned texts.now.catalog.now texts.now.statement.now froms.now r nodes.old nodes.new }
{
    let name = texts.clipped(row::name(froms, r));
    let alias = texts.clipped_option(row::alias(froms, r));
    nodes::scan(nodes, name, alias, None);
}

// The item in row r, which is a table. It makes no cell: the area, whatever it is, stays as it was.
pub fn build_table(
    exprs: &Expressions,
    tables: &[u32],
    froms: &[u32],
    r: u32,
    nodes: &mut Nodes,
    at: Step,
) -> Result<Source, Refusal>
    requires nodes_room { NodeRoom scan_size nodes.old }
    requires next_node { at.node + 1 < 2 ^ 32 }
    ensures { (area : List ℕ) → ItemRoom exprs.now.texts.catalog.now exprs.now.texts.statement.now tables.now
        (table_row exprs.now.texts.catalog.now exprs.now.texts.statement.now froms.now r) at area nodes.old
        → Builds exprs.now.texts.catalog.now exprs.now.texts.statement.now tables.now exprs.now.table.now
        (table_row exprs.now.texts.catalog.now exprs.now.texts.statement.now froms.now r) at
        area nodes.old area nodes.new result }
{
    let l = row::line(froms, r);
    let name = row::name(froms, r);
    let i = find_table(&exprs.texts, tables, name, l)?;
    let s = named_scope(tables, froms, r, i);
    scan_row(&exprs.texts, froms, r, nodes);
    Ok(Source {
        scope: s,
        line: l,
        at: at.next(at.cell),
    })
}
