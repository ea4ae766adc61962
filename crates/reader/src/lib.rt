// Both texts read: the catalog and the statement as numbers, or the refusal of one.
#![tactic(auto)]

ghost use Rattle.std.specs.Prelude.{◌≡◌, ◌≤◌, length};
ghost use Rattle.schema.specs.Room.{numbers_for};
ghost use Rattle.reader.specs.Reading.{texts_by, TextsRead};

use numbers::refusals::{Reason, Text, TextRefusal};
use schema::read::read_catalog;
use statement::access::{Kind, kind_of, line};
use statement::{CELL_NUMBERS, FROM_NUMBERS, PART_NUMBERS, read_statement};
use text::places::Texts;

// Two texts that were read: the statement's kind, how many expression cells it has and how many tables the catalog has.
#[derive(Clone, Copy, Debug, PartialEq, Eq)]
pub struct Contents {
    pub kind: Kind,
    pub cells: u32,
    pub tables: u32,
}

// A statement that was read, by its kind and line: refused where it is none of the six that can be planned.
fn taken(kind: Kind, line: u32, cells: u32, tables: u32) -> Result<Contents, TextRefusal>
    ensures { result ≡ texts_by kind line cells tables }
{
    match kind {
        Kind::Other => Err(Text::Statement.refuses(Reason::OtherStatement.at(line))),
        _ => Ok(Contents {
            kind,
            cells,
            tables,
        }),
    }
}

// Both texts, whatever they are; `tables` has enough numbers for the catalog (schema::read::numbers_for). Where the texts
// are refused the numbers in the slices mean nothing.
pub fn read_texts(
    texts: &Texts,
    tables: &mut [u32],
    cells: &mut [u32; CELL_NUMBERS],
    froms: &mut [u32; FROM_NUMBERS],
    parts: &mut [u32; PART_NUMBERS],
) -> Result<Contents, TextRefusal>
    requires { numbers_for (length texts.now.catalog.now) ≤ length tables.old }
    ensures { TextsRead texts.now.catalog.now texts.now.statement.now tables.new cells.new froms.new parts.new result }
{
    if (text::MOST_BYTES as usize) < texts.catalog.len() {
        return Err(Text::Catalog.refuses(Reason::LimitPassed.at(0)));
    }
    if (text::MOST_BYTES as usize) < texts.statement.len() {
        return Err(Text::Statement.refuses(Reason::LimitPassed.at(0)));
    }
    read_catalog(texts.catalog, tables).map_err(|w| Text::Catalog.refuses(w))?;
    let read = read_statement(texts.statement, cells, froms, parts);
    let count = read.map_err(|w| Text::Statement.refuses(w))?;
    taken(kind_of(parts), line(parts), count, tables[0])
}
