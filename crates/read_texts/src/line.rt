// The printed line: four fields parted by tabs, and an LF.
ghost use Rattle.std.specs.Prelude.{◌≤◌, ◌≡◌, [], ◌∷◌, length, take, Ok, Err};
ghost use Rattle.io.specs.Counts.{IsPrefixLen};
ghost use Rattle.listing.specs.Lines.{Lines};
ghost use Rattle.read_texts.specs.Line.{kind_word, fields_of, line_of};

use listing::put::Writer;
use numbers::refusals::TextRefusal;
use reader::Contents;
use statement::access::Kind;
use text::places::Texts;

// The word of a statement's kind.
#[tactic(auto, unfolding(crate::specs::Line::kind_word, rules::specs::Lines::bytes))]
fn kind_word(kind: Kind) -> &'static [u8]
    ensures { result.now ≡ kind_word kind }
{
    match kind {
        Kind::Select => b"select",
        Kind::Create => b"create",
        Kind::Drop => b"drop",
        Kind::Delete => b"delete",
        Kind::Insert => b"insert",
        Kind::Update => b"update",
        Kind::Other => b"other",
    }
}

// The line of texts that were read.
fn put_read(to: &mut Writer, t: Contents)
    ensures line { Lines to.old to.new (fields_of (Ok t) ∷ []) }
    ensures short { length (line_of (Ok t)) ≤ 64 }
{
    to.bytes(b"read");
    to.field(kind_word(t.kind));
    to.number(t.cells);
    to.number(t.tables);
    to.byte(b'\n');
}

fn put_line(to: &mut Writer, t: Result<Contents, TextRefusal>)
    ensures line { Lines to.old to.new (fields_of t ∷ []) }
    ensures short { length (line_of t) ≤ 64 }
{
    match t {
        Ok(t) => put_read(to, t),
        Err(w) => to.refusal(w),
    }
}

// The line of two texts that were read or refused, at the start of `out`.
pub fn put_texts(t: Result<Contents, TextRefusal>, out: &mut [u8; 64]) -> usize
    ensures { IsPrefixLen result out.new × (take result out.new ≡ line_of t) }
{
    let mut to = Writer {
        window: out,
        left: 64,
        texts: Texts {
            catalog: b"",
            statement: b"",
        },
    };
    put_line(&mut to, t);
    64 - to.left
}
