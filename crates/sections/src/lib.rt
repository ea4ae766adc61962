// Sections of a statement: the records of one kind that stand in a row, each with its expressions.
#![tactic(auto)]

pub mod entry;

ghost use Rattle.std.specs.Prelude.{◌≡◌, ◌∷◌, ℕ, ◌+◌, ◌≤◌, ◌<◌, ◌^◌, length};
ghost use Rattle.std.proofs.lemmas.List.Edits.{sets};
ghost use Rattle.read_expression.specs.Reading.{Position, Given};
ghost use Rattle.numbers.specs.Options.{option_of};
ghost use Rattle.entries.specs.Entries.{most_of, null_number, is_once, section, some_section};
ghost use Rattle.entries.specs.Sections.{number_of};
ghost use Rattle.sections.specs.Layout.{start_of};
ghost use Rattle.sections.specs.Terms.{SectionRead};
ghost use Rattle.entries.specs.Heads.{words_numbers, numbers_of};
ghost use Rattle.sections.specs.OneEntry.{entry_start, EntryReady, EntryRead};

use ast::rows::TABLE_SIZE;
use entries::{Head, Section, Words, entry_head};
use numbers::put;
use numbers::refusals::{Reason, Refusal};
use read_expression::reading::{Cursor, read_expressions};
use text::places::Place;

// How many numbers the parts of a statement take: its own, its entries and how many FROM rows it has.
pub const PART_NUMBERS: usize = 3863;

// How many numbers an entry has: the parts are lent zeroed (reader_read_texts), and 0 is no kind and no type, so entries stay numbers.
const ENTRY_SIZE: usize = 12;

// The most items, sets, columns, names, groups and keys of ORDER.
pub const ENTRIES: u32 = 64;

// Where reading a section stands, behind how many entries, and the name of the last one.
#[derive(Clone, Copy, Debug, PartialEq, Eq)]
struct Run {
    at: Cursor,
    count: u32,
    last: Option<Place>,
}

// Where a section starts in the parts, and the most entries that it has.
#[derive(Clone, Copy, Debug, PartialEq, Eq)]
struct Room {
    start: usize,
    most: u32,
}

// Sections that no statement has together share their numbers.
#[tactic(auto, unfolding(crate::specs::Layout::start_of, entries::specs::Entries::most_of))]
fn room_of(kind: Section) -> Room
    ensures { (result.start ≡ start_of (number_of kind)) × (result.most ≡ most_of (number_of kind)) }
{
    let (start, most) = match kind {
        Section::Item | Section::Set | Section::Column => (8, ENTRIES),
        Section::Columns => (8, 1),
        Section::Name => (21, ENTRIES),
        Section::Where => (777, 1),
        Section::Group => (790, ENTRIES),
        Section::Row => (790, 256),
        Section::Having => (1559, 1),
        Section::Order => (1572, ENTRIES),
        Section::Offset => (2341, 1),
        Section::Limit => (2354, 1),
    };
    Room { start, most }
}

// Whether a section is a clause: one record at most.
fn is_once(kind: Section) -> bool
    ensures { result ≡ is_once (number_of kind) }
{
    room_of(kind).most == 1
}

// Where the n-th entry of a section starts.
fn entry_start(kind: Section, n: u32) -> usize
    ensures { (result ≡ entry_start (number_of kind) n) × (result < 2 ^ 63) }
{
    let start = room_of(kind).start;
    start + 1 + ENTRY_SIZE * (n as usize)
}

// 0 where nothing is said of nulls, 1 where they are allowed, 2 where they are not.
#[tactic(auto, unfolding(entries::specs::Entries::null_number))]
fn null_number(nullable: Option<bool>) -> u32
    ensures { result ≡ null_number (option_of nullable) }
{
    match nullable {
        None => 0,
        Some(true) => 1,
        Some(false) => 2,
    }
}

// The length of an entry's name, and what else its record says, in eight places from i on.
#[tactic(auto, unfolding(entries::specs::Heads::words_numbers, rules::specs::Area::flag))]
fn put_words(parts: &mut [u32], i: usize, name_length: u32, words: Option<Words>)
    requires { i + 8 ≤ length parts.old }
    ensures { parts.new ≡ sets parts.old i (name_length ∷ words_numbers words) }
{
    match words {
        None => put(parts, i, [name_length, 0, 0, 0, 0, 0, 0, 0]),
        Some(Words::Descends(descends)) => {
            put(
                parts,
                i,
                [name_length, u32::from(descends), 0, 0, 0, 0, 0, 0],
            );
        }
        Some(Words::Column(column)) => {
            let (reference, extent) = Place::numbers(column.reference);
            let numbers = [
                name_length,
                u32::from(column.datatype),
                u32::from(column.key),
                null_number(column.nullable),
                u32::from(column.unique),
                u32::from(column.index),
                reference,
                extent,
            ];
            put(parts, i, numbers);
        }
    }
}

// The numbers of an entry, from i on: its line, the row of its first expression, and what its record says.
fn put_entry(parts: &mut [u32], i: usize, line: u32, row: u32, h: Head)
    requires { i + 12 ≤ length parts.old }
    ensures { parts.new ≡ sets parts.old i (line ∷ h.expressions ∷ row ∷ numbers_of h) }
{
    let (address, length) = Place::numbers(h.name);
    put(parts, i, [line, h.expressions, row, address]);
    put_words(parts, i + 4, length, h.words);
}

// The entry that stands here, if one does, behind those of a run.
fn read_entry(
    t: &[u8],
    run: Run,
    kind: Section,
    cells: &mut [u32; TABLE_SIZE],
    parts: &mut [u32; PART_NUMBERS],
) -> Result<Option<Run>, Refusal>
    requires { EntryReady t.now run.at.position run.at.line run.at.rows (number_of kind) run.count }
    ensures { (k : ℕ) → EntryRead t.now run.at.position run.at.line run.at.rows (number_of kind) run.count run.last
        cells.old cells.new parts.old parts.new k result }
{
    let at = run.at;
    let f = text::fields(t, at.position);
    let Some(h) = entry_head(t, at, f, kind, run.last)? else {
        return Ok(None);
    };
    let most = room_of(kind).most;
    if most <= run.count {
        return Err(Reason::LimitPassed.at(at.line));
    }
    let behind = read_expressions(t, at.behind(f.next), h.expressions, cells)?;
    let i = entry_start(kind, run.count);
    put_entry(parts, i, at.line, at.rows, h);
    Ok(Some(Run {
        at: behind,
        count: run.count + 1,
        last: h.name,
    }))
}

// The section of a kind that stands here.
pub fn read_section(
    t: &[u8],
    at: Cursor,
    kind: Section,
    cells: &mut [u32; TABLE_SIZE],
    parts: &mut [u32; PART_NUMBERS],
) -> Result<Cursor, Refusal>
    requires { Position t.now at.position at.line at.rows }
    ensures { (k : ℕ) → Given (section (number_of kind)) (SectionRead t.now
        (number_of kind) at.rows cells.old cells.new parts.old parts.new) t.now at.position at.line at.rows k result }
{
    let once = is_once(kind);
    let start = room_of(kind).start;
    let mut run = Run {
        at,
        count: 0,
        last: None,
    };
    while let Some(next) = read_entry(t, run, kind, cells, parts)? {
        if once {
            parts[start] = next.count;
            return Ok(next.at);
        }
        run = next;
    }
    parts[start] = run.count;
    Ok(run.at)
}

// The same, with one entry at least.
pub fn read_some(
    t: &[u8],
    at: Cursor,
    kind: Section,
    cells: &mut [u32; TABLE_SIZE],
    parts: &mut [u32; PART_NUMBERS],
) -> Result<Cursor, Refusal>
    requires { Position t.now at.position at.line at.rows }
    ensures { (k : ℕ) → Given (some_section (number_of kind)) (SectionRead t.now
        (number_of kind) at.rows cells.old cells.new parts.old parts.new) t.now at.position at.line at.rows k result }
{
    let behind = read_section(t, at, kind, cells, parts)?;
    let start = room_of(kind).start;
    if parts[start] == 0 {
        return Err(Reason::WrongRecord.at(at.line));
    }
    Ok(behind)
}
