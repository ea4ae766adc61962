// The catalog's text into numbers: a loop over the tables, and in each a loop over its columns.
ghost use Rattle.std.specs.Prelude.{◌≡◌, ◌≤◌, length};
ghost use Rattle.rules.specs.Lists.{Bytes};
ghost use Rattle.rules.specs.Limits.{most_bytes};
ghost use Rattle.rules.specs.ReadCatalog.{read_catalog};
ghost use Rattle.schema.specs.Room.{numbers_for};
ghost use Rattle.schema.specs.Columns.{ColumnReady, ColumnRead};
ghost use Rattle.schema.specs.ColumnRuns.{ColumnsRead};
ghost use Rattle.schema.specs.Tables.{TableReady, TableRead};
ghost use Rattle.schema.specs.TableRuns.{catalog_of, catalog_answer};

use crate::record::{Cursor, column_record, default_record, table_record};
use crate::{COLUMN_SIZE, COLUMNS, NUMBERS, column_start, table_start};
use numbers::literals::put_given;
use numbers::put;
use numbers::refusals::{Reason, Refusal};

// Most tables a catalog.
const MOST_TABLES: u32 = 32;

// Most columns a table.
const MOST_TABLE_COLUMNS: u32 = 64;

// The fewest bytes of a column with its default: `column x int null`, `null` and their LFs.
const LEAST_COLUMN: usize = 23;

// Behind the columns of a table: where that is, and how many columns there are.
#[derive(Clone, Copy, Debug, PartialEq, Eq)]
struct Run {
    at: Cursor,
    count: u32,
}

// The column that stands at a position, if one does, by its index in its table, whose first column is `first` of all; and the position behind it.
fn read_column(
    catalog: &[u8],
    tables: &mut [u32],
    at: Cursor,
    first: usize,
    index: u32,
) -> Result<Option<usize>, Refusal>
    requires { ColumnReady catalog.now tables.old at.position at.line first index }
    ensures { ColumnRead catalog.now at.position at.line first index tables.old tables.new result }
{
    let Some(c) = column_record(catalog, at)? else {
        return Ok(None);
    };
    if MOST_TABLE_COLUMNS <= index {
        return Err(Reason::LimitPassed.at(at.line));
    }
    let f = text::fields(catalog, c.next);
    let Some(d) = default_record(catalog, c.next, f) else {
        return Err(Reason::WrongRecord.at(at.line + 1));
    };
    let i = column_start(first + index as usize);
    let datatype = u32::from(c.datatype);
    let nullable = u32::from(c.nullable);
    put(
        tables,
        i,
        [c.name.address, c.name.length, datatype, nullable],
    );
    put_given(tables, i + 4, d);
    Ok(Some(f.next))
}

// The columns that stand at a position.
fn read_columns(
    catalog: &[u8],
    tables: &mut [u32],
    at: Cursor,
    first: usize,
) -> Result<Run, Refusal>
    requires { ColumnReady catalog.now tables.old at.position at.line first 0 }
    ensures { ColumnsRead catalog.now at.position at.line first tables.old tables.new result }
{
    let mut run = Run { at, count: 0 };
    while let Some(next) = read_column(catalog, tables, run.at, first, run.count)? {
        run = Run {
            at: Cursor {
                position: next,
                line: run.at.line + 2,
            },
            count: run.count + 1,
        };
    }
    Ok(run)
}

// The table that stands at a position, by its index; its first column is `first` of all.
fn read_table(
    catalog: &[u8],
    tables: &mut [u32],
    at: Cursor,
    index: u32,
    first: usize,
) -> Result<Run, Refusal>
    requires { TableReady catalog.now tables.old at.position at.line index first }
    ensures { TableRead catalog.now at.position at.line index first tables.old tables.new result }
{
    let Some(h) = table_record(catalog, tables, index, at.position) else {
        return Err(Reason::WrongRecord.at(at.line));
    };
    if MOST_TABLES <= index {
        return Err(Reason::LimitPassed.at(at.line));
    }
    let columns = Cursor {
        position: h.next,
        line: at.line + 1,
    };
    let run = read_columns(catalog, tables, columns, first)?;
    if run.count <= h.key {
        return Err(Reason::WrongRecord.at(at.line));
    }
    let i = table_start(index);
    put(
        tables,
        i,
        [
            h.name.address,
            h.name.length,
            h.key,
            first as u32,
            run.count,
        ],
    );
    Ok(run)
}

// All tables of a text that is not too long.
fn read_tables(catalog: &[u8], tables: &mut [u32]) -> Result<(), Refusal>
    requires { (length catalog.now ≤ most_bytes) × (numbers_for (length catalog.now) ≤ length tables.old) }
    ensures { (q : Bytes) → catalog_of catalog.now q tables.new result ≡ read_catalog catalog.now }
{
    // counted by hand: where the next table stands is known only once this one is read
    let mut at = Cursor {
        position: 0,
        line: 1,
    };
    let mut n: u32 = 0;
    let mut first: usize = 0;
    while at.position < catalog.len() {
        let run = read_table(catalog, tables, at, n, first)?;
        at = run.at;
        n += 1;
        first += run.count as usize;
    }
    tables[0] = n;
    Ok(())
}

// Enough numbers for a catalog of 2,048 bytes.
pub const SMALL_NUMBERS: usize = 873;

// How many numbers are enough for the catalog of a text that has so many bytes.
pub fn numbers_for(bytes: usize) -> usize
    ensures { result ≡ numbers_for bytes }
{
    NUMBERS.min(COLUMNS + COLUMN_SIZE * (bytes / LEAST_COLUMN))
}

// The catalog from its text, whatever that is, into enough numbers. Where it is refused the numbers mean nothing.
pub fn read_catalog(catalog: &[u8], tables: &mut [u32]) -> Result<(), Refusal>
    requires { numbers_for (length catalog.now) ≤ length tables.old }
    ensures { (q : Bytes) → catalog_of catalog.now q tables.new result ≡ catalog_answer catalog.now }
{
    if (text::MOST_BYTES as usize) < catalog.len() {
        return Err(Reason::LimitPassed.at(0));
    }
    read_tables(catalog, tables)
}
