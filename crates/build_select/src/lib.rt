// SELECT planned whole (planner.rs, build_select): each function builds a clause or two behind those before it, and goes
// on to the next. (A function has some eight calls in a row at most, as everywhere in the project: each contract says what the
// rest of the plan asks, and `scope` and `at` are two as in `stage`.)
#![tactic(auto)]

mod ends; // ends.rt: OFFSET, LIMIT, the last remap and the end of the plan
mod groups; // groups.rt: groups, aggregates and the projection
mod items; // items.rt: the items and WHERE
mod later; // later.rt: HAVING and ORDER

ghost use Rattle.schema.specs.Layout.{catalog_at};
ghost use Rattle.statement.specs.Access.{select_at};
ghost use Rattle.rules.specs.BuildSelect.{build_select};
ghost use Rattle.build_statement.specs.Plans.{Plans};
ghost use Rattle.build_select.specs.Sources.{SelectReady};

use ast::Expressions;
use ast::rows::TABLE_SIZE;
use build_from::clause::build_from_clause;
use items::select_items;
use numbers::refusals::Refusal;
use plan::nodes::Nodes;
use statement::access::from_rows;
use text::places::Texts;

// Numbers that are enough for the nodes of a SELECT over at most one table.
pub const ONE_TABLE_SIZE: usize = 1702;

// FROM, and all that follows.
pub fn build_select(
    texts: &Texts,
    tables: &[u32],
    cells: &mut [u32; TABLE_SIZE],
    froms: &[u32],
    parts: &[u32],
    area: &mut [u32],
    nodes: &mut Nodes,
) -> Result<u32, Refusal>
    requires { SelectReady texts.now.catalog.now texts.now.statement.now tables.now cells.old froms.now parts.now area.old
        nodes.old }
    ensures { Plans
        (build_select (catalog_at texts.now.catalog.now texts.now.statement.now tables.now)
        (select_at texts.now.catalog.now texts.now.statement.now cells.old froms.now parts.now))
        area.old area.new result }
{
    let rows = from_rows(parts);
    let source = build_from_clause(
        &Expressions {
            texts: *texts,
            table: cells,
        },
        tables,
        froms,
        rows,
        area,
        nodes,
    )?;
    select_items(texts, cells, parts, &source.scope, area, nodes, source.at)
}
