// A statement that was read, planned by its kind (planner.rs, Planner::build).
ghost use Rattle.std.specs.Prelude.{◌≡◌, ◌≤◌, length, true};
ghost use Rattle.rules.specs.Limits.{least_area};
ghost use Rattle.build_statement.specs.Plans.{Plans};
ghost use Rattle.build_statement.specs.Kinds.{Free};
ghost use Rattle.planner.specs.Kinds.{StatementReady, statement_plan, has_one_table};

use ast::Expressions;
use build_insert::insert::build_insert;
use build_select::{ONE_TABLE_SIZE, build_select};
use build_statement::create::build_create_table;
use build_statement::delete::build_delete;
use build_statement::drop::build_drop_table;
use build_update::update::build_update;
use numbers::refusals::{Reason, Refusal};
use plan::NODES_SIZE;
use plan::nodes::Nodes;
use statement::CELL_NUMBERS;
use statement::access::{Kind, from_rows, kind_of, line};
use text::places::Texts;

// By its kind, with room for the nodes of any statement.
fn build_kind(
    texts: &Texts,
    tables: &[u32],
    cells: &mut [u32; CELL_NUMBERS],
    froms: &[u32],
    parts: &[u32],
    area: &mut [u32],
    nodes: &mut Nodes,
) -> Result<u32, Refusal>
    requires statement_ready { StatementReady texts.now.catalog.now texts.now.statement.now tables.now cells.old froms.now
        parts.now }
    requires free { Free area.old nodes.old }
    ensures { Plans (statement_plan texts.now tables.now cells.old froms.now parts.now) area.old area.new result }
{
    let kind = kind_of(parts);
    let exprs = Expressions {
        texts: *texts,
        table: cells,
    };
    match kind {
        Kind::Select => build_select(texts, tables, cells, froms, parts, area, nodes),
        Kind::Create => build_create_table(&exprs, parts, area, nodes),
        Kind::Drop => {
            build_drop_table(texts, parts, area, nodes);
            Ok(0)
        }
        Kind::Delete => build_delete(&exprs, tables, parts, area, nodes),
        Kind::Insert => build_insert(&exprs, tables, parts, area, nodes),
        Kind::Update => build_update(&exprs, tables, parts, area, nodes),
        Kind::Other => Err(Reason::OtherStatement.at(line(parts))),
    }
}

// Whether it is a SELECT over at most one table.
fn has_one_table(parts: &[u32]) -> bool
    ensures { result ≡ has_one_table parts.now }
{
    kind_of(parts) == Kind::Select && from_rows(parts) <= 1
}

// A SELECT over at most one table, in few numbers for its nodes. Each of the two arrays has a function of its own: of arrays that
// `Nodes` borrows, a function that holds both would write the zeros of both.
fn build_one_table(
    texts: &Texts,
    tables: &[u32],
    cells: &mut [u32; CELL_NUMBERS],
    froms: &[u32],
    parts: &[u32],
    area: &mut [u32],
) -> Result<u32, Refusal>
    requires statement_ready { StatementReady texts.now.catalog.now texts.now.statement.now tables.now cells.old froms.now
        parts.now }
    requires area_room { least_area ≤ length area.old }
    requires one_table { has_one_table parts.now ≡ true }
    ensures { Plans (statement_plan texts.now tables.now cells.old froms.now parts.now) area.old area.new result }
{
    let mut numbers = [0u32; ONE_TABLE_SIZE];
    let mut nodes = Nodes {
        numbers: &mut numbers,
        used: 0,
    };
    build_select(texts, tables, cells, froms, parts, area, &mut nodes)
}

// Any statement, in as many numbers for its nodes as any may need.
fn build_any(
    texts: &Texts,
    tables: &[u32],
    cells: &mut [u32; CELL_NUMBERS],
    froms: &[u32],
    parts: &[u32],
    area: &mut [u32],
) -> Result<u32, Refusal>
    requires statement_ready { StatementReady texts.now.catalog.now texts.now.statement.now tables.now cells.old froms.now
        parts.now }
    requires area_room { least_area ≤ length area.old }
    ensures { Plans (statement_plan texts.now tables.now cells.old froms.now parts.now) area.old area.new result }
{
    let mut numbers = [0u32; NODES_SIZE];
    let mut nodes = Nodes {
        numbers: &mut numbers,
        used: 0,
    };
    build_kind(texts, tables, cells, froms, parts, area, &mut nodes)
}

// In as many numbers for its nodes as it may need.
pub fn build(
    texts: &Texts,
    tables: &[u32],
    cells: &mut [u32; CELL_NUMBERS],
    froms: &[u32],
    parts: &[u32],
    area: &mut [u32],
) -> Result<u32, Refusal>
    requires statement_ready { StatementReady texts.now.catalog.now texts.now.statement.now tables.now cells.old froms.now
        parts.now }
    requires area_room { least_area ≤ length area.old }
    ensures { Plans (statement_plan texts.now tables.now cells.old froms.now parts.now) area.old area.new result }
{
    if has_one_table(parts) {
        return build_one_table(texts, tables, cells, froms, parts, area);
    }
    build_any(texts, tables, cells, froms, parts, area)
}
