// The plan as text (docs/PLAN.md), from the numbers of an area and the two texts.
#![tactic(auto)]

mod cells; // cells.rt: the lines of cells
mod nodes; // nodes.rt: the lines of nodes
mod own; // own.rt: the statement's own lines
mod parts; // parts.rt: the repeated parts of a node's line
pub mod put; // put.rt: bytes and fields

ghost use Rattle.std.specs.Prelude.{◌≡◌, drop};
ghost use Rattle.rules.specs.Refusals.{refusal_number};
ghost use Rattle.rules.specs.Entry.{text_number};
ghost use Rattle.rules.specs.Print.{show_lines};
ghost use Rattle.numbers.specs.Reasons.{reason_of};
ghost use Rattle.numbers.specs.Texts.{text_of};
ghost use Rattle.listing.specs.Lines.{Lines, LinesIn};
ghost use Rattle.listing.specs.Own.{statement_named, header_of, area_lines, show_area};
ghost use Rattle.listing.specs.Listed.{Told, Holds, refusal_line};

use cells::tail;
use numbers::number;
use numbers::refusals::TextRefusal;
use plan::finish::Kind;
use put::Writer;
use text::places::Texts;

// The bytes of a window: what is listed of a plan at once.
pub const WINDOW: usize = 65536;

pub type Window = [u8; WINDOW];

// How many bytes of the window are listed, from how many of it are left; none where it is full, as there may be more.
#[tactic(auto, unfolding(crate::specs::Listed::Told))]
fn told(left: usize) -> Option<usize>
    ensures { Told left result }
{
    if left == 0 {
        return None;
    }
    Some(WINDOW.saturating_sub(left))
}

// The word of a statement's kind.
#[tactic(auto, unfolding(crate::specs::Own::statement_named, rules::specs::Lines::bytes))]
fn kind_word(kind: Kind) -> &'static [u8]
    ensures { result.now ≡ statement_named kind }
{
    match kind {
        Kind::Select => b"select",
        Kind::Create => b"create",
        Kind::Drop => b"drop",
        Kind::Delete => b"delete",
        Kind::Insert => b"insert",
        Kind::Update => b"update",
    }
}

impl<'a> Writer<'a> {
    // The first line; an empty word where the statement's number is no kind's.
    fn header(&mut self, kind: Option<Kind>, area: &[u32])
        ensures { Lines self.old self.new (header_of kind area.now) }
    {
        self.bytes(b"plan");
        self.field(kind.map(kind_word).unwrap_or(b""));
        self.number(number(area, 3));
        self.number(number(area, 2));
        self.byte(b'\n');
    }

    // The lines of an area.
    fn area(&mut self, area: &[u32])
        ensures { LinesIn self.old self.new (λ c q. area_lines c q area.now) }
    {
        let kind = Kind::try_from(number(area, 1)).ok();
        self.header(kind, area);
        self.cells(area);
        self.nodes(area);
        if let Some(kind) = kind {
            let last = number(area, 3).saturating_sub(1);
            self.own(kind, last, tail(area, number(area, 4) as usize));
        }
    }

    // The line of a refusal by its number, its text's number and its line; an empty word where the second is no text's.
    fn refusal_line(&mut self, number: u32, text: u32, line: u32)
        ensures { Lines self.old self.new (refusal_line number text line) }
    {
        self.bytes(b"refused");
        self.number(number);
        self.word(&[b"", b"catalog", b"statement"], text);
        self.number(line);
        self.byte(b'\n');
    }

    // The line of a refusal.
    pub fn refusal(&mut self, refusal: TextRefusal)
        ensures { Lines self.old self.new (refusal_line (refusal_number (reason_of refusal.reason))
            (text_number (text_of refusal.text)) refusal.line) }
    {
        let number = u32::from(refusal.reason);
        self.refusal_line(number, u32::from(refusal.text), refusal.line);
    }
}

// The listing of an area from its byte `from` on: how many bytes of the window it has, with none behind them; or `None`,
// where it fills the window and there may be more.
pub fn list(texts: &Texts, area: &[u32], from: u32, out: &mut Window) -> Option<usize>
    ensures { Holds (drop from (show_area texts.now.catalog.now texts.now.statement.now area.now)) out.new result }
{
    let mut to = Writer {
        window: out,
        left: from as usize + WINDOW,
        texts: *texts,
    };
    to.area(area);
    told(to.left)
}

// The line of a refusal by its number, its text's number and its line, from its byte `from` on, answered as `list` does.
pub fn list_refusal(number: u32, text: u32, line: u32, from: u32, out: &mut Window) -> Option<usize>
    ensures { Holds (drop from (show_lines (refusal_line number text line))) out.new result }
{
    let mut to = Writer {
        window: out,
        left: from as usize + WINDOW,
        texts: Texts {
            catalog: b"",
            statement: b"",
        },
    };
    to.refusal_line(number, text, line);
    told(to.left)
}
