// The catalog (schema.rs; engine.rs, Catalog): its text into numbers, and lookups in them.
#![tactic(auto)]

pub mod read;
mod record;

ghost use Rattle.std.specs.Prelude.{◌≡◌, ◌<◌, ◌+◌, ◌^◌, IfSome, length, get_or};
ghost use Rattle.rules.specs.Lists.{Bytes};
ghost use Rattle.rules.specs.Places.{bytes_at, word_at};
ghost use Rattle.rules.specs.Schema.{column_at, default_at};
ghost use Rattle.numbers.specs.Literals.{given_value};
ghost use Rattle.schema.specs.Layout.{table_start, column_start, table_at, catalog_at};
ghost use Rattle.schema.specs.Search.{FirstTable, table_from, found_of, found_table, TablePosition, start_of, name_at};

use numbers::literals::Literal;
use numbers::number;
use numbers::refusals::{Reason, Refusal};
use text::places::{Place, Texts};

// The most numbers that a catalog takes: how many tables, 32 tables of five numbers, 2,048 columns of eight. They are lent zeroed
// (reader_read_texts), and 0 is no column's type, so they stay numbers.
pub const NUMBERS: usize = 16545;

// Where the tables' numbers start, and how many each table has.
const TABLES: usize = 1;

const TABLE_SIZE: usize = 5;

// Where the columns' numbers start, and how many each column has.
const COLUMNS: usize = 161;

const COLUMN_SIZE: usize = 8;

// Where the numbers of the i-th table start.
fn table_start(i: u32) -> usize
    ensures { result ≡ table_start i }
{
    TABLES + TABLE_SIZE * (i as usize)
}

// Where the numbers of the j-th of all columns start.
fn column_start(j: usize) -> usize
    requires { j < 2 ^ 33 }
    ensures { result ≡ column_start j }
{
    COLUMNS + COLUMN_SIZE * j
}

// The position of the first of n tables that has the name at a place.
fn table_among(texts: &Texts, tables: &[u32], n: u32, name: Place) -> Option<u32>
    ensures { FirstTable texts.now.catalog.now texts.now.statement.now tables.now
        (bytes_at texts.now.catalog.now texts.now.statement.now name.address name.length) n result }
{
    (0..n).find(|i| {
        let own = Place::at(tables, table_start(*i));
        texts.same_bytes(own, name)
    })
}

// The position of the table of the name at a place.
pub fn get_table(texts: &Texts, tables: &[u32], name: Place) -> Option<u32>
    ensures { found_table texts.now.catalog.now texts.now.statement.now tables.now result
        ≡ table_from 0 (catalog_at texts.now.catalog.now texts.now.statement.now tables.now)
        (bytes_at texts.now.catalog.now texts.now.statement.now name.address name.length) }
{
    table_among(texts, tables, number(tables, 0), name)
}

// The position of the table of the name at a place; refused at a line where there is none.
pub fn find_table(texts: &Texts, tables: &[u32], name: Place, line: u32) -> Result<u32, Refusal>
    ensures { TablePosition texts.now.catalog.now texts.now.statement.now tables.now
        (bytes_at texts.now.catalog.now texts.now.statement.now name.address name.length) line result }
{
    get_table(texts, tables, name).ok_or(Reason::UnknownTable.at(line))
}

// The position of the first column of a name in the i-th table.
pub fn column_at(texts: &Texts, tables: &[u32], i: u32, name: Place) -> Option<u32>
    ensures { found_of result ≡ column_at 0 (table_at texts.now.catalog.now texts.now.statement.now tables.now i).columns
        (bytes_at texts.now.catalog.now texts.now.statement.now name.address name.length) }
{
    let first = first_column(tables, i);
    let count = column_count(tables, i);
    (0..count).find(|j| {
        let own = Place::at(tables, column_start(first + *j as usize));
        texts.same_bytes(own, name)
    })
}

// The key position of the i-th table.
pub fn key(tables: &[u32], i: u32) -> u32
    ensures { (c q : Bytes) → result ≡ (table_at c q tables.now i).key }
{
    number(tables, table_start(i) + 2)
}

// How many columns the i-th table has.
pub fn column_count(tables: &[u32], i: u32) -> u32
    ensures { (c q : Bytes) → result ≡ length (table_at c q tables.now i).columns }
{
    number(tables, table_start(i) + 4)
}

// Which of all columns the first of the i-th table is.
fn first_column(tables: &[u32], i: u32) -> usize
    ensures is { result ≡ get_or tables.now (table_start i + 3) 0 }
    ensures small { result < 2 ^ 32 }
{
    number(tables, table_start(i) + 3) as usize
}

// Where the numbers of the j-th column of the i-th table start, if there is such a column.
fn start_of(tables: &[u32], i: u32, j: u32) -> Option<usize>
    ensures start { result ≡ start_of tables.now i j }
    ensures small { IfSome result (λ k. k < 2 ^ 62) }
{
    if column_count(tables, i) <= j {
        return None;
    }
    Some(column_start(first_column(tables, i) + j as usize))
}

// The place of the name of the j-th column of the i-th table, or the empty word.
pub fn column_name(tables: &[u32], i: u32, j: u32) -> Place
    ensures { (c q : Bytes) → word_at c q result.address result.length ≡ name_at c q (table_at c q tables.now i).columns j }
{
    match start_of(tables, i, j) {
        None => Place::default(),
        Some(k) => Place::at(tables, k),
    }
}

// The default of the j-th column of the i-th table.
pub fn default_at(tables: &[u32], i: u32, j: u32) -> Option<Literal>
    ensures { (c q : Bytes) → given_value c q result ≡ default_at (table_at c q tables.now i).columns j }
{
    let k = start_of(tables, i, j)?;
    let kind = number(tables, k + 4);
    if kind == 0 {
        return None;
    }
    Some(Literal::of_numbers(kind, number(tables, k + 5), number(tables, k + 6)))
}
