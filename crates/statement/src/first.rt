// A statement's first record, and its numbers at the start of the parts (specs/Layout.antt).
ghost use Rattle.std.specs.Prelude.{◌≡◌, ℕ, [], ◌∷◌, ◌≤◌, length};
ghost use Rattle.std.specs.Option.{option_map};
ghost use Rattle.std.proofs.lemmas.List.Edits.{sets};
ghost use Rattle.rules.specs.Lists.{Bytes, named};
ghost use Rattle.rules.specs.Limits.{most_bytes};
ghost use Rattle.rules.specs.Reader.{line_here, one_of};
ghost use Rattle.rules.specs.ReadStatement.{statement_heads};
ghost use Rattle.text.specs.Lines.{field};
ghost use Rattle.rules.specs.Area.{flag};
ghost use Rattle.numbers.specs.Options.{option_of};
ghost use Rattle.text.specs.Fields.{Inside};
ghost use Rattle.read_expression.specs.Reading.{here, LineAt};
ghost use Rattle.statement.specs.Kinds.{number_of};
ghost use Rattle.statement.specs.Access.{name_or};
ghost use Rattle.statement.specs.declared.access.Kind.TheVariants as kinds;
ghost use Rattle.statement.specs.FirstRecord.{first_said, said_by, OneName};

use crate::access::{FLAG, KIND, Kind, LINE, NAME, name_or};
use text::Field;
use text::places::{Place, name_at};
use text::words::beside;

// A first record: the statement's kind, its name, and whether a `drop` says yes; no in any other, as it stands in the parts.
#[derive(Clone, Copy, Debug, PartialEq, Eq)]
pub struct First {
    pub kind: Kind,
    pub name: Option<Place>,
    pub if_exists: bool,
}

// The kind of statement whose keyword a word is.
fn keyword(word: &[u8]) -> Option<Kind>
    ensures { option_of (option_map said_by result) ≡ named statement_heads word.now }
{
    let table: [(&[u8], Kind); 7] = [
        (b"select", Kind::Select),
        (b"delete", Kind::Delete),
        (b"insert", Kind::Insert),
        (b"update", Kind::Update),
        (b"create", Kind::Create),
        (b"drop", Kind::Drop),
        (b"other", Kind::Other),
    ];
    beside(&table, word)
}

// A statement whose one field is a name.
fn named(kind: Kind, name: Field) -> Option<First>
    requires place { (name.start ≤ 65536) × (name.length ≤ 65536) }
    requires one_name { OneName kind }
    ensures { (c t : Bytes) → Inside t name.start name.length → first_said c t result
        ≡ said_by kind (field most_bytes t name.start name.length ∷ []) }
{
    let name = name_at(name)?;
    Some(First {
        kind,
        name: Some(name),
        if_exists: false,
    })
}

// A `drop`: a name, and yes or no.
fn dropped(name: Field, answer: &[u8]) -> Option<First>
    requires { (name.start ≤ 65536) × (name.length ≤ 65536) }
    ensures { (c t : Bytes) (o : ℕ) → Inside t name.start name.length → first_said c t result ≡ said_by kinds.Drop
        (field most_bytes t name.start name.length ∷ record { bytes = answer.now; start = o } ∷ []) }
{
    let name = name_at(name)?;
    let table: [(&[u8], bool); 2] = [(b"yes", true), (b"no", false)];
    let if_exists = beside(&table, answer)?;
    Some(First {
        kind: Kind::Drop,
        name: Some(name),
        if_exists,
    })
}

// The first record of a text, by the fields of its first line.
pub fn first_record(t: &[u8], f: text::Line) -> Option<First>
    requires { LineAt t.now 0 f }
    ensures { (c : Bytes) → first_said c t.now result ≡ one_of statement_heads (line_here (here t.now 0 1 0 0)) }
{
    let n = f.count;
    let kind = keyword(f.field(t, 0))?;
    match kind {
        Kind::Select | Kind::Other => {
            if n != 1 {
                return None;
            }
            Some(First {
                kind,
                name: None,
                if_exists: false,
            })
        }
        Kind::Drop => {
            if n != 3 {
                return None;
            }
            dropped(f.fields[1], f.field(t, 2))
        }
        Kind::Delete | Kind::Insert | Kind::Update | Kind::Create => {
            if n != 2 {
                return None;
            }
            named(kind, f.fields[1])
        }
    }
}

// The first five numbers of the parts: the kind, the line, the name and the flag.
pub fn put_first(parts: &mut [u32], f: First)
    requires { 5 ≤ length parts.old }
    ensures { parts.new ≡ sets parts.old 0 (number_of f.kind ∷ 1 ∷ (name_or f.name).address ∷ (name_or f.name).length ∷
        flag f.if_exists ∷ []) }
{
    let name = name_or(f.name);
    parts[KIND] = u32::from(f.kind);
    parts[LINE] = 1;
    parts[NAME] = name.address;
    parts[NAME + 1] = name.length;
    parts[FLAG] = u32::from(f.if_exists);
}
