// INSERT: the table, its column map, then the rows of values (planner.rs, build_insert).
ghost use Rattle.std.specs.Prelude.{◌≡◌, ◌≤◌, length, option_copied, IfSome};
ghost use Rattle.rules.specs.Limits.{least_area};
ghost use Rattle.rules.specs.Ast as ast;
ghost use Rattle.rules.specs.BuildStatement.{build_insert};
ghost use Rattle.schema.specs.Layout.{catalog_at};
ghost use Rattle.plan.specs.Layout.{most_plan_cells};
ghost use Rattle.build_statement.specs.Plans.{Plans};
ghost use Rattle.build_statement.specs.Kinds.{Free, ReadyFor, insert_at};
ghost use Rattle.build_insert.specs.Map.{given_map, map_of};
ghost use Rattle.build_insert.specs.Rows.{rows_at};
ghost use Rattle.build_insert.specs.Own.{MapFits};
ghost use Rattle.build_insert.specs.Inserts.{InsertEnds, InsertFits, RowsPlanned};

use crate::map::column_map;
use crate::own::put_own;
use crate::rows::build_node;
use ast::Expressions;
use numbers::refusals::Refusal;
use plan::finish::Kind;
use plan::nodes::Nodes;
use plan::steps::Step;
use schema::find_table;
use sections::ENTRIES;
use statement::access;
use text::places::{Place, Texts};

// How many names INSERT has at most.
const MOST_NAMES: usize = ENTRIES as usize;

// The plan behind its cells and its node, of a table that is named by the bytes at a place.
fn end_insert(
    texts: &Texts,
    name: Place,
    columns: Option<&[u32]>,
    area: &mut [u32],
    nodes: &mut Nodes,
    cells: u32,
)
    requires area_room { least_area ≤ length area.old }
    requires few_cells { cells ≤ most_plan_cells }
    requires map_fits { MapFits (given_map (option_copied columns)) nodes.old }
    ensures { InsertEnds texts.now.catalog.now texts.now.statement.now name.address name.length
        (given_map (option_copied columns.entry)) cells nodes.old nodes.new area.old area.new }
{
    let name = texts.clipped(name);
    let own = nodes.used;
    put_own(columns, nodes, name);
    let at = Step {
        cell: cells,
        node: 1,
    };
    nodes.finish(area, Kind::Insert, at, own);
}

// The rows and the end, of a table that is named by the bytes at a place, by its column map.
fn build_mapped(
    exprs: &Expressions,
    parts: &[u32],
    name: Place,
    columns: Option<&[u32]>,
    area: &mut [u32],
    nodes: &mut Nodes,
) -> Result<u32, Refusal>
    requires free { Free area.old nodes.old }
    requires insert_fits { InsertFits (rows_at exprs.now.texts.catalog.now exprs.now.texts.statement.now exprs.now.table.now
        parts.now) (given_map (option_copied columns)) }
    ensures { RowsPlanned exprs.now.texts.catalog.now exprs.now.texts.statement.now name.address name.length
        (given_map (option_copied columns.entry))
        (rows_at exprs.now.texts.catalog.now exprs.now.texts.statement.now exprs.now.table.now parts.now)
        area.old area.new result }
{
    let cells = build_node(exprs, parts, area, nodes)?;
    end_insert(&exprs.texts, name, columns, area, nodes, cells);
    Ok(cells)
}

// The columns of a map among those lent, by how many they are.
fn map_columns(columns: &[u32], count: Option<u32>) -> Option<&[u32]>
    requires { IfSome count (λ n. n ≤ length columns.now) }
    ensures { given_map (option_copied result) ≡ map_of columns.now count }
{
    match count {
        None => None,
        Some(n) => Some(&columns[..n as usize]),
    }
}

// Refused at the statement's line where there is no such table.
pub fn build_insert(
    exprs: &Expressions,
    tables: &[u32],
    parts: &[u32],
    area: &mut [u32],
    nodes: &mut Nodes,
) -> Result<u32, Refusal>
    requires { ReadyFor exprs.now.texts.catalog.now exprs.now.texts.statement.now tables.now
        (ast.insert (insert_at exprs.now.texts.catalog.now exprs.now.texts.statement.now exprs.now.table.now parts.now))
        area.old nodes.old }
    ensures { Plans
        (build_insert (catalog_at exprs.now.texts.catalog.now exprs.now.texts.statement.now tables.now)
        (insert_at exprs.now.texts.catalog.now exprs.now.texts.statement.now exprs.now.table.now parts.now))
        area.old area.new result }
{
    let name = access::name(parts);
    let table = find_table(&exprs.texts, tables, name, access::line(parts))?;
    let mut columns = [0u32; MOST_NAMES];
    let count = column_map(exprs, tables, table, parts, &mut columns)?;
    let map = map_columns(&columns, count);
    build_mapped(exprs, parts, name, map, area, nodes)
}
