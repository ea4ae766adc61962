// The sets of an UPDATE in order: the cells of what each column is set to, and its position and root among the numbers of
// the nodes.
ghost use Rattle.std.specs.Prelude.{[], ◌∷◌, ℕ, ◌+◌, ◌*◌, length};
ghost use Rattle.rules.specs.Sizes.{option_size, sets_size};
ghost use Rattle.rules.specs.BuildStatement.{set_built};
ghost use Rattle.appends.specs.Lists.Kinds.{emit_seconds};
ghost use Rattle.schema.specs.Layout.{table_at};
ghost use Rattle.statement.specs.EntryAccess.{given_of};
ghost use Rattle.plan.specs.Layout.{set_size};
ghost use Rattle.plan.specs.Pushed.{NodeRoom};
ghost use Rattle.plan.specs.Cells.{Room};
ghost use Rattle.build_expression.specs.Builds.{scope_at};
ghost use Rattle.build_update.specs.Writes.{Writes, set_of};
ghost use Rattle.build_update.specs.SoFar.{sets_at};

use crate::set::build_set;
use ast::Expressions;
use build_expression::position::position_of;
use entries::Section;
use numbers::refusals::Refusal;
use plan::nodes::Nodes;
use plan::own;
use scope::view::View;
use sections::entry;
use sections::entry::Entry;
use statement::access::name_or;

// The set of the entry e in the i-th table: its column is looked up before its value is built.
fn write_set(
    exprs: &Expressions,
    tables: &[u32],
    i: u32,
    e: Entry,
    scope: &View,
    area: &mut [u32],
    nodes: &mut Nodes,
    cell: u32,
) -> Result<u32, Refusal>
    requires room { Room cell (3 * option_size (given_of exprs.now.texts.catalog.now exprs.now.texts.statement.now
        exprs.now.table.now e) + 1) area.old }
    requires nodes_room { NodeRoom set_size nodes.old }
    ensures { (h : ℕ) → Writes
        (emit_seconds (set_built
        (scope_at exprs.now.texts.catalog.now exprs.now.texts.statement.now exprs.now.table.now
        scope.now.labels.now scope.now.matches.now scope.now.tables.now h)
        (table_at exprs.now.texts.catalog.now exprs.now.texts.statement.now tables.now i).columns)
        cell (set_of exprs.now.texts.catalog.now exprs.now.texts.statement.now exprs.now.table.now e ∷ []))
        cell area.old area.new nodes.old nodes.new result }
{
    let name = name_or(e.name);
    let found = scope.lookup(&exprs.texts, None, name);
    let j = position_of(found, e.line)?;
    let next = build_set(exprs, tables, i, j, e, scope, area, cell)?;
    own::set(nodes, j, next - 1);
    Ok(next)
}

// All sets, one behind the other.
pub fn write_sets(
    exprs: &Expressions,
    tables: &[u32],
    parts: &[u32],
    i: u32,
    scope: &View,
    area: &mut [u32],
    nodes: &mut Nodes,
    cell: u32,
) -> Result<u32, Refusal>
    requires room { Room cell
        (3 * sets_size (sets_at exprs.now.texts.catalog.now exprs.now.texts.statement.now exprs.now.table.now parts.now)
        + length (sets_at exprs.now.texts.catalog.now exprs.now.texts.statement.now exprs.now.table.now parts.now)) area.old }
    requires nodes_room { NodeRoom (set_size * length (sets_at exprs.now.texts.catalog.now
        exprs.now.texts.statement.now exprs.now.table.now parts.now)) nodes.old }
    ensures { (h : ℕ) → Writes
        (emit_seconds (set_built
        (scope_at exprs.now.texts.catalog.now exprs.now.texts.statement.now exprs.now.table.now
        scope.now.labels.now scope.now.matches.now scope.now.tables.now h)
        (table_at exprs.now.texts.catalog.now exprs.now.texts.statement.now tables.now i).columns)
        cell (sets_at exprs.now.texts.catalog.now exprs.now.texts.statement.now exprs.now.table.now parts.now))
        cell area.old area.new nodes.old nodes.new result }
{
    let sets = entry::count(parts, Section::Set);
    let mut written = cell;
    for v in 0..sets {
        let e = entry::entry_at(parts, Section::Set, v);
        written = write_set(exprs, tables, i, e, scope, area, nodes, written)?;
    }
    Ok(written)
}
