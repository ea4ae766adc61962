// What one record of a section says (specs/Entries.antt).
#![tactic(auto)]

ghost use Rattle.std.specs.Prelude.{◌≡◌, ℕ, ◌-◌, ◌≤◌, Some, None};
ghost use Rattle.std.proofs.Math.Option.{Option, none, some};
ghost use Rattle.rules.specs.Refusals.{statement};
ghost use Rattle.rules.specs.Limits.{most_bytes};
ghost use Rattle.rules.specs.Lists.{Bytes, named, map_option};
ghost use Rattle.rules.specs.Lines.{Word};
ghost use Rattle.rules.specs.ReadColumn.{nullness};
ghost use Rattle.rules.specs.ReadStatement as rules;
ghost use Rattle.numbers.specs.Options.{option_of};
ghost use Rattle.text.specs.Lines.{field};
ghost use Rattle.text.specs.Reading.{field_of};
ghost use Rattle.text.specs.Fields.{Inside};
ghost use Rattle.text.specs.Packed.{number};
ghost use Rattle.read_expression.specs.Reading.{here, LineAt, IsLine};
ghost use Rattle.entries.specs.Entries.{fields_of, keyword_of};
ghost use Rattle.entries.specs.Sections.{number_of};
ghost use Rattle.entries.specs.Heads.{IsHead, last_name, saying};
ghost use Rattle.entries.specs.HeadFields.{NameIs, HeadIs, HeadIsHere, clause_fields, name_head};
ghost use Rattle.entries.specs.ColumnWords.{flags, column_said};

use numbers::datatypes::DataType;
use numbers::refusals::{Reason, Refusal};
use read_expression::reading::Cursor;
use text::places::{Place, name_at};
use text::words::{self, beside};
use text::{Field, Line};

// The sections of a statement but FROM, in the order of their keywords: the clauses of a SELECT, from `where` to `limit`, stand in it
// as they do in the text.
#[derive(Clone, Copy, Debug, PartialEq, Eq)]
pub enum Section {
    Item,
    Where,
    Group,
    Having,
    Order,
    Offset,
    Limit,
    Columns,
    Name,
    Row,
    Set,
    Column,
}

// What a new column's record says beside its name: its type, whether it is the key, whether it may be null, if that is said, whether
// it is unique and has an index, and the table that it refers to.
#[derive(Clone, Copy, Debug, PartialEq, Eq)]
pub struct NewColumn {
    pub datatype: DataType,
    pub key: bool,
    pub nullable: Option<bool>,
    pub unique: bool,
    pub index: bool,
    pub reference: Option<Place>,
}

// What some records say: whether an order key descends, or what a new column is beside its name.
#[derive(Clone, Copy, Debug, PartialEq, Eq)]
pub enum Words {
    Descends(bool),
    Column(NewColumn),
}

// What a record says, and how many expressions follow it.
#[derive(Clone, Copy, Debug, PartialEq, Eq)]
pub struct Head {
    pub expressions: u32,
    pub name: Option<Place>,
    pub words: Option<Words>,
}

// A record that says no more than how many expressions follow it.
fn plain(expressions: u32) -> Head
    ensures { result ≡ saying expressions None None }
{
    Head {
        expressions,
        name: None,
        words: None,
    }
}

// A record without fields, and so many expressions.
fn clause(f: Line, expressions: u32) -> Option<Head>
    requires { expressions ≤ 1 }
    ensures { (t : Bytes) (p : ℕ) → LineAt t p f → HeadIsHere t p (clause_fields expressions) result }
{
    if f.count != 1 {
        return None;
    }
    Some(plain(expressions))
}

// A name, and so many expressions.
fn name_head(name: Field, expressions: u32) -> Option<Head>
    requires place { (name.start ≤ 65536) × (name.length ≤ 65536) }
    requires few { expressions ≤ 1 }
    ensures { (t : Bytes) → Inside t name.start name.length
        → HeadIs t (name_head expressions (field most_bytes t name.start name.length)) result }
{
    let name = name_at(name)?;
    Some(Head {
        expressions,
        name: Some(name),
        words: None,
    })
}

// An item: its alias or none.
fn item(f: Line) -> Option<Head>
    requires { IsLine f }
    ensures { (t : Bytes) (p : ℕ) → LineAt t p f → HeadIsHere t p (fields_of 0 none) result }
{
    if f.count == 1 {
        return Some(plain(1));
    }
    if f.count != 2 {
        return None;
    }
    name_head(f.fields[1], 1)
}

// An order key: its direction.
fn order(t: &[u8], f: Line) -> Option<Head>
    ensures { (p : ℕ) → LineAt t.now p f → HeadIsHere t.now p (fields_of 4 none) result }
{
    if f.count != 2 {
        return None;
    }
    let table: [(&[u8], bool); 2] = [(b"asc", false), (b"desc", true)];
    let descends = beside(&table, f.field(t, 1))?;
    Some(Head {
        expressions: 1,
        name: None,
        words: Some(Words::Descends(descends)),
    })
}

// An inserted name.
fn name(f: Line) -> Option<Head>
    requires { IsLine f }
    ensures { (t : Bytes) (p : ℕ) → LineAt t p f → HeadIsHere t p (fields_of 8 none) result }
{
    if f.count != 2 {
        return None;
    }
    name_head(f.fields[1], 0)
}

// An inserted row: the number of its expressions.
fn row(t: &[u8], f: Line) -> Option<Head>
    ensures { (p : ℕ) → LineAt t.now p f → HeadIsHere t.now p (fields_of 9 none) result }
{
    if f.count != 2 {
        return None;
    }
    let v = text::count(f.field(t, 1))?;
    Some(plain(v as u32))
}

// The position of an address in the statement's text.
fn position(address: u32) -> usize
    ensures { result ≡ address - most_bytes }
{
    address.saturating_sub(text::MOST_BYTES) as usize
}

// Whether a name comes behind the last one, or there is none.
fn rises(t: &[u8], last: Option<Place>, name: &[u8]) -> bool
    ensures { (w : Word) → name.now ≡ w.bytes → result ≡ rules.rises (last_name t.now last) w }
{
    let Some(place) = last else {
        return true;
    };
    let last_name = text::part(t, position(place.address), place.length as usize);
    text::compare(last_name, name).is_lt()
}

// A set: its name, and whether it is set to its default.
fn set(t: &[u8], f: Line, last: Option<Place>) -> Option<Head>
    requires { IsLine f }
    ensures { (p : ℕ) → LineAt t.now p f → HeadIsHere t.now p (fields_of 10 (last_name t.now last)) result }
{
    let expressions = match f.count {
        2 => 1,
        3 if text::equal(b"default", f.field(t, 2)) => 0,
        _ => return None,
    };
    if !rises(t, last, f.field(t, 1)) {
        return None;
    }
    name_head(f.fields[1], expressions)
}

// What a word says of nulls: that they are allowed, that they are not, or neither.
fn nullable(word: &[u8]) -> Option<Option<bool>>
    ensures { map_option option_of (option_of result) ≡ named nullness word.now }
{
    let table: [(&[u8], Option<bool>); 3] = [
        (b"null", Some(true)),
        (b"notnull", Some(false)),
        (b"-", None),
    ];
    beside(&table, word)
}

// Whether a word is the flag's name; none where it is neither this nor `-`.
fn flag(name: &[u8], word: &[u8]) -> Option<bool>
    ensures { option_of result ≡ named (flags name.now) word.now }
{
    let table: [(&[u8], bool); 2] = [(name, true), (b"-", false)];
    beside(&table, word)
}

// A column's record by its words: type, `pk`, `null` or `notnull`, `unique`, `index`, `default`.
fn column_words(t: &[u8], f: Line, name: Place, reference: Option<Place>) -> Option<Head>
    ensures { (w : Word) (r : Option Word) → NameIs t.now (some w) (Some name) → NameIs t.now r reference
        → HeadIs t.now (column_said w (field_of statement t.now f) r) result }
{
    let datatype = words::datatype(f.field(t, 2))?;
    let key = flag(b"pk", f.field(t, 3))?;
    let nullable = nullable(f.field(t, 4))?;
    let unique = flag(b"unique", f.field(t, 5))?;
    let index = flag(b"index", f.field(t, 6))?;
    let default = flag(b"default", f.field(t, 7))?;
    Some(Head {
        expressions: u32::from(default),
        name: Some(name),
        words: Some(Words::Column(NewColumn {
            datatype,
            key,
            nullable,
            unique,
            index,
            reference,
        })),
    })
}

// A new column: its name, its words, its reference or none.
fn column(t: &[u8], f: Line) -> Option<Head>
    requires { IsLine f }
    ensures { (p : ℕ) → LineAt t.now p f → HeadIsHere t.now p (fields_of 11 none) result }
{
    let reference = match f.count {
        8 => None,
        9 => Some(name_at(f.fields[8])?),
        _ => return None,
    };
    let name = name_at(f.fields[1])?;
    column_words(t, f, name, reference)
}

// What the fields of a section's record say, behind an entry of the last name.
#[tactic(auto, unfolding(crate::specs::Entries::fields_of, crate::specs::HeadFields::clause_fields))]
fn fields_head(t: &[u8], f: Line, kind: Section, last: Option<Place>) -> Option<Head>
    requires { IsLine f }
    ensures { (p : ℕ) → LineAt t.now p f → HeadIsHere t.now p (fields_of (number_of kind) (last_name t.now last)) result }
{
    match kind {
        Section::Item => item(f),
        Section::Order => order(t, f),
        Section::Columns => clause(f, 0),
        Section::Name => name(f),
        Section::Row => row(t, f),
        Section::Set => set(t, f, last),
        Section::Column => column(t, f),
        Section::Where | Section::Group | Section::Having | Section::Offset | Section::Limit => {
            clause(f, 1)
        }
    }
}

// The number that a section's keyword is packed into.
#[tactic(auto, unfolding(crate::specs::Entries::keyword_of, rules::specs::Lines::bytes, text::specs::Packed::number))]
fn keyword(kind: Section) -> u64
    ensures { result ≡ number (keyword_of (number_of kind)) }
{
    match kind {
        Section::Item => words::ITEM,
        Section::Where => words::WHERE,
        Section::Group => words::GROUP,
        Section::Having => words::HAVING,
        Section::Order => words::ORDER,
        Section::Offset => words::OFFSET,
        Section::Limit => words::LIMIT,
        Section::Columns => words::COLUMNS,
        Section::Name => words::NAME,
        Section::Row => words::ROW,
        Section::Set => words::SET,
        Section::Column => words::COLUMN,
    }
}

// The section's record that stands here, if one does, by its fields, behind an entry of the last name.
pub fn entry_head(
    t: &[u8],
    at: Cursor,
    f: Line,
    kind: Section,
    last: Option<Place>,
) -> Result<Option<Head>, Refusal>
    requires { LineAt t.now at.position f }
    ensures { (l c k : ℕ) → IsHead t.now (number_of kind) (last_name t.now last) at.line
        (here t.now at.position l c k) result }
{
    if text::packed(f.field(t, 0)) != keyword(kind) {
        return Ok(None);
    }
    let Some(h) = fields_head(t, f, kind, last) else {
        return Err(Reason::WrongRecord.at(at.line));
    };
    Ok(Some(h))
}
