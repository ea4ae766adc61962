// One line of the catalog each: a table's record, a column's, a default's.
ghost use Rattle.std.specs.Prelude.{◌≡◌, ℕ};
ghost use Rattle.rules.specs.Lists.{Bytes, named};
ghost use Rattle.rules.specs.Reader.{line_here, one_of, literals};
ghost use Rattle.rules.specs.ReadColumn.{nullables};
ghost use Rattle.rules.specs.ReadCatalog.{default_records};
ghost use Rattle.numbers.specs.Options.{option_of};
ghost use Rattle.text.specs.Lines.{Fields};
ghost use Rattle.schema.specs.Records.{Position, here, default_said, ColumnLine, TableLine};

use crate::table_among;
use literal::record::literal_at;
use numbers::datatypes::DataType;
use numbers::literals::Literal;
use numbers::refusals::{Reason, Refusal};
use text::places::{Place, Texts};
use text::{Line, words};

// A position in the catalog, and its line.
#[derive(Clone, Copy, Debug, PartialEq, Eq)]
pub struct Cursor {
    pub position: usize,
    pub line: u32,
}

// A column's record: its name, its type, whether it may be null, and the position behind the line.
#[derive(Clone, Copy, Debug, PartialEq, Eq)]
pub struct ColumnRecord {
    pub name: Place,
    pub datatype: DataType,
    pub nullable: bool,
    pub next: usize,
}

// A table's record: its name, its key position, and the position behind the line.
#[derive(Clone, Copy, Debug, PartialEq, Eq)]
pub struct TableRecord {
    pub name: Place,
    pub key: u32,
    pub next: usize,
}

// Whether a column may be null, by its field.
fn may_be_null(word: &[u8]) -> Option<bool>
    ensures { option_of result ≡ named nullables word.now }
{
    match text::packed(word) {
        words::NULL => Some(true),
        words::NOTNULL => Some(false),
        _ => None,
    }
}

// The column's record at a position, where one stands there.
pub fn column_record(catalog: &[u8], at: Cursor) -> Result<Option<ColumnRecord>, Refusal>
    requires { Position catalog.now at.position }
    ensures { ColumnLine catalog.now at.position at.line result }
{
    let f = text::fields(catalog, at.position);
    if !text::equal(f.field(catalog, 0), b"column") {
        return Ok(None);
    }
    if f.count != 4 {
        return Err(Reason::WrongRecord.at(at.line));
    }
    if !text::is_name(f.fields[1].length) {
        return Err(Reason::WrongRecord.at(at.line));
    }
    let Some(datatype) = words::datatype(f.field(catalog, 2)) else {
        return Err(Reason::WrongRecord.at(at.line));
    };
    let Some(nullable) = may_be_null(f.field(catalog, 3)) else {
        return Err(Reason::WrongRecord.at(at.line));
    };
    Ok(Some(ColumnRecord {
        name: Place {
            address: f.fields[1].start as u32,
            length: f.fields[1].length as u32,
        },
        datatype,
        nullable,
        next: f.next,
    }))
}

// The table's record at a position, behind n tables, whose names no other may have.
pub fn table_record(catalog: &[u8], tables: &[u32], n: u32, at: usize) -> Option<TableRecord>
    requires { Position catalog.now at }
    ensures { TableLine catalog.now tables.now n at result }
{
    let f = text::fields(catalog, at);
    if !text::equal(f.field(catalog, 0), b"table") {
        return None;
    }
    if f.count != 3 {
        return None;
    }
    if !text::is_name(f.fields[1].length) {
        return None;
    }
    let k = text::count(f.field(catalog, 2))?;
    let name = Place {
        address: f.fields[1].start as u32,
        length: f.fields[1].length as u32,
    };
    let texts = Texts {
        catalog,
        statement: catalog,
    };
    if table_among(&texts, tables, n, name).is_some() {
        return None;
    }
    Some(TableRecord {
        name,
        key: k as u32,
        next: f.next,
    })
}

// The default's record at a position, by its fields: a literal or `nodefault`.
pub fn default_record(catalog: &[u8], at: usize, f: Line) -> Option<Option<Literal>>
    requires position { Position catalog.now at }
    requires fields { Fields catalog.now at f }
    ensures { (q : Bytes) (l : ℕ) → default_said catalog.now q result
        ≡ one_of (default_records literals) (line_here (here catalog.now at l)) }
{
    if text::equal(f.field(catalog, 0), b"nodefault") {
        if f.count != 1 {
            return None;
        }
        return Some(None);
    }
    let v = literal_at(catalog, 0, at, &f)?;
    Some(Some(v))
}
