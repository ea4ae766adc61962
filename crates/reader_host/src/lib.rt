// The reading of both texts for a host in Rust: a refusal, or what was read, in numbers.
#![tactic(auto)]

ghost use Rattle.std.specs.Prelude.{◌≡◌};
ghost use Rattle.rules.specs.Refusals as rules;
ghost use Rattle.rules.specs.Schema.{Catalog};
ghost use Rattle.rules.specs.Ast.{Statement};
ghost use Rattle.schema.specs.Layout.{catalog_at};
ghost use Rattle.statement.specs.Layout.{statement_at};
ghost use Rattle.reader.specs.Texts.{read_texts};
ghost use Rattle.reader_host.specs.Numbers.{answered as answeredBy, answer_of};

use numbers::refusals::TextRefusal;
use reader::Contents;
use schema::NUMBERS;
use statement::{CELL_NUMBERS, FROM_NUMBERS, PART_NUMBERS};
use text::places::Texts;

// Document 01's number of a refusal, its text (1 catalog, 2 statement) and line; or 0, and the statement's kind, how many
// expression cells it has and how many tables the catalog has.
#[repr(C)]
#[derive(Clone, Copy, Debug, PartialEq, Eq)]
pub struct Answer {
    pub number: u32,
    pub text: u32,
    pub line: u32,
    pub kind: u32,
    pub cells: u32,
    pub tables: u32,
}

#[tactic(auto, unfolding(crate::specs::Numbers::answered))]
fn answered(t: Result<Contents, TextRefusal>) -> Answer
    ensures { result ≡ answeredBy t }
{
    match t {
        Ok(t) => Answer {
            number: 0,
            text: 0,
            line: 0,
            kind: u32::from(t.kind),
            cells: t.cells,
            tables: t.tables,
        },
        Err(w) => {
            let number = u32::from(w.reason);
            let text = u32::from(w.text);
            Answer {
                number,
                text,
                line: w.line,
                kind: 0,
                cells: 0,
                tables: 0,
            }
        }
    }
}

// Both texts, whatever they are. What they say stands in the slices; where they are refused those mean nothing.
#[unsafe(no_mangle)]
pub extern "C" fn reader_read_texts(
    catalog: &[u8],
    statement: &[u8],
    tables: &mut [u32; NUMBERS],
    cells: &mut [u32; CELL_NUMBERS],
    froms: &mut [u32; FROM_NUMBERS],
    parts: &mut [u32; PART_NUMBERS],
) -> Answer
    ensures value { result ≡ answer_of (read_texts catalog.now statement.now) }
    ensures parts_after { (x : Catalog × Statement) → read_texts catalog.now statement.now ≡ rules.ok x
        → (
          catalog_at catalog.now statement.now tables.new,
          statement_at catalog.now statement.now cells.new froms.new
              parts.new,
        ) ≡ x }
{
    let texts = Texts { catalog, statement };
    answered(reader::read_texts(&texts, tables, cells, froms, parts))
}
