// The column map of INSERT: the column of each value, where the statement names columns.
ghost use Rattle.std.specs.Prelude.{◌≡◌, ◌≤◌, ◌<◌, length, set, IfOk, IfSome};
ghost use Rattle.std.proofs.Math.Option.{some};
ghost use Rattle.rules.specs.Plan.{cindex};
ghost use Rattle.rules.specs.BuildStatement.{mapped, column_map};
ghost use Rattle.schema.specs.Layout.{table_at};
ghost use Rattle.sections.specs.Layout.{section_at};
ghost use Rattle.sections.specs.Access.{name_kind};
ghost use Rattle.build_insert.specs.Map as map;

use ast::Expressions;
use entries::Section;
use numbers::refusals::{Reason, Refusal};
use schema::column_at;
use sections::entry;
use statement::access::name_or;

// A column's position in its table (the Rust's cindex).
#[derive(Clone, Copy, Debug, PartialEq, Eq)]
pub struct TablePosition(pub u32);

// A value's position in its row (the Rust's vindex).
#[derive(Clone, Copy, Debug, PartialEq, Eq)]
pub struct ValuePosition(pub u32);

// A value is for a column.
fn map_value(columns: &mut [u32], value: ValuePosition, column: TablePosition)
    requires { value.0 < length columns.old }
    ensures { columns.new ≡ set columns.old value.0 column.0 }
{
    let i = value.0 as usize;
    columns[i] = column.0;
}

// Whether a column is among the values' columns.
fn is_mapped(columns: &[u32], column: TablePosition) -> bool
    ensures { result ≡ mapped (cindex column.0) (map.mappings columns.now 0 (length columns.now)) }
{
    columns.contains(&column.0)
}

// The column of each name in the i-th table, in order, and how many they are. Refused at the name of no column, and at one
// that was given before.
fn map_names(
    exprs: &Expressions,
    tables: &[u32],
    i: u32,
    parts: &[u32],
    columns: &mut [u32],
) -> Result<u32, Refusal>
    requires { length (section_at exprs.now.texts.catalog.now exprs.now.texts.statement.now exprs.now.table.now parts.now
        name_kind) ≤ length columns.old }
    ensures map { map.Maps
        (column_map (table_at exprs.now.texts.catalog.now exprs.now.texts.statement.now tables.now i).columns
        (some (map.names_at exprs.now.texts.catalog.now exprs.now.texts.statement.now exprs.now.table.now parts.now)))
        columns.old columns.new (map.given_result result) }
    ensures few { IfOk result (λ n. n ≤ length columns.new) }
{
    let count = entry::count(parts, Section::Name);
    for v in 0..count {
        let e = entry::entry_at(parts, Section::Name, v);
        let name = name_or(e.name);
        let found = column_at(&exprs.texts, tables, i, name);
        let Some(j) = found else {
            return Err(Reason::UnknownInsertColumn.at(e.line));
        };
        let column = TablePosition(j);
        if is_mapped(&columns[..v as usize], column) {
            return Err(Reason::RepeatedInsertColumn.at(e.line));
        }
        map_value(columns, ValuePosition(v), column);
    }
    Ok(count)
}

// The statement's map into the i-th table, or none: how many of the lent columns are the map. A `columns` of no names is
// not no `columns`.
pub fn column_map(
    exprs: &Expressions,
    tables: &[u32],
    i: u32,
    parts: &[u32],
    columns: &mut [u32],
) -> Result<Option<u32>, Refusal>
    requires { map.NamesFit (map.given_names exprs.now.texts.catalog.now exprs.now.texts.statement.now exprs.now.table.now
        parts.now) columns.old }
    ensures map { map.Maps
        (column_map (table_at exprs.now.texts.catalog.now exprs.now.texts.statement.now tables.now i).columns
        (map.given_names exprs.now.texts.catalog.now exprs.now.texts.statement.now exprs.now.table.now parts.now))
        columns.old columns.new result }
    ensures few { IfOk result (λ m. IfSome m (λ n. n ≤ length columns.new)) }
{
    if entry::count(parts, Section::Columns) == 0 {
        return Ok(None);
    }
    let count = map_names(exprs, tables, i, parts, columns)?;
    Ok(Some(count))
}
