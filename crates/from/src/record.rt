// What one record of FROM says.
ghost use Rattle.std.specs.Prelude.{◌≡◌, List, [], ◌∷◌, ℕ, ◌≤◌, length};
ghost use Rattle.rules.specs.Lists.{same, any};
ghost use Rattle.rules.specs.Lines.{bytes};
ghost use Rattle.rules.specs.Reader.{key, line_here, one_of, rest};
ghost use Rattle.rules.specs.ReadStatement.{from_heads};
ghost use Rattle.text.specs.Lines.{line_end};
ghost use Rattle.read_expression.specs.Reading.{here, LineAt, IsLine};
ghost use Rattle.from.specs.declared.row.Kind.TheVariants.{Table};
ghost use Rattle.from.specs.Records.{table_fields, join_fields, IsFromRow};

use crate::row::Kind;
use text::places::{Place, name_at};
use text::{Line, words};

// What a FROM record says: a table's name and its alias, or a join's kind and whether a predicate follows it.
#[derive(Clone, Copy, Debug, PartialEq, Eq)]
pub enum Said {
    Table(Place, Option<Place>),
    Join(Kind, bool),
}

// A FROM record: what it says, and the position behind it.
#[derive(Clone, Copy, Debug, PartialEq, Eq)]
pub struct FromRecord {
    pub said: Said,
    pub next: usize,
}

// A table's name, and its alias where the line has one.
fn table_record(f: Line) -> Option<FromRecord>
    requires { IsLine f }
    ensures { (t : List ℕ) (p l c k : ℕ) → LineAt t p f
        → IsFromRow t f.next (table_fields (rest (here t p l c k))) result }
{
    let alias = match f.count {
        2 => None,
        3 => Some(name_at(f.fields[2])?),
        _ => return None,
    };
    let name = name_at(f.fields[1])?;
    Some(FromRecord {
        said: Said::Table(name, alias),
        next: f.next,
    })
}

// A join's two words.
fn join_record(kind: &[u8], predicate: &[u8], next: usize) -> Option<FromRecord>
    ensures { (t : List ℕ) (o q : ℕ) → IsFromRow t next
        (join_fields (record { bytes = kind.now; start = o } ∷ record { bytes = predicate.now; start = q } ∷ [])) result }
{
    let kinds: [(&[u8], Kind); 4] = [
        (b"cross", Kind::Cross),
        (b"inner", Kind::Inner),
        (b"left", Kind::Left),
        (b"right", Kind::Right),
    ];
    let predicates: [(&[u8], bool); 2] = [(b"on", true), (b"bare", false)];
    let kind = words::beside(&kinds, kind)?;
    let on = words::beside(&predicates, predicate)?;
    Some(FromRecord {
        said: Said::Join(kind, on),
        next,
    })
}

// The FROM record at a position, if one stands there and fits.
pub fn from_record(t: &[u8], p: usize) -> Option<FromRecord>
    requires { (length t.now ≤ 65536) × (p ≤ length t.now) }
    ensures { (l c k : ℕ) → IsFromRow t.now (line_end t.now p) (one_of from_heads (line_here (here t.now p l c k))) result }
{
    let f = text::fields(t, p);
    let word = f.field(t, 0);
    if text::equal(word, b"from") {
        return table_record(f);
    }
    if !text::equal(word, b"join") {
        return None;
    }
    if f.count != 3 {
        return None;
    }
    join_record(f.field(t, 1), f.field(t, 2), f.next)
}

// Whether the record at a position is meant to be one of FROM.
pub fn from_stands(t: &[u8], p: usize) -> bool
    ensures { (l c k : ℕ) → result ≡ any (same (key (here t.now p l c k))) (bytes "from" ∷ bytes "join" ∷ []) }
{
    let f = text::fields(t, p);
    let word = f.field(t, 0);
    text::equal(word, b"from") || text::equal(word, b"join")
}
