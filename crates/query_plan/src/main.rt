// The planning program: reads `catalog.txt` where it runs and a statement on standard input, and prints the listing of the
// plan, or the refusal. The record that a refusal points at is shown on standard error.
#![tactic(auto)]

ghost use Rattle.std.specs.Prelude.{◌≡◌, drop, IfOk, OnOk};
ghost use Rattle.std.specs.Io.KnownBytes.{Appends};
ghost use Rattle.rules.specs.Listing.{listing};
ghost use Rattle.listing.specs.Listed.{Holds};
ghost use Rattle.planner.specs.Outcomes.{told};
ghost use Rattle.plan_listing.specs.Shown.{shown};
ghost use Rattle.lines.specs.Spans.{nth_line};
ghost use Rattle.numbers.specs.Texts as code;
ghost use Rattle.text.specs.Reading.{text_of};
ghost use Rattle.query_plan.specs.Written.{window_of, shown_line, shown_record, fault_record};

use anyhow::{Context, Result};
use input::SIZE;
use lines::line_at;
use listing::{WINDOW, Window};
use numbers::refusals::{Text, TextRefusal};
use plan_listing::list_outcome;
use planner::{LEAST_AREA, Outcome};
use std::fs::File;
use std::io;
use std::io::Write;
use text::places::Texts;

// Most windows that are printed: a listing of 4 GiB. No plan in an area has as much.
const MOST_WINDOWS: u32 = 65536;

// The rules' listing of both texts from its byte `from` on, as `list_outcome` answers it.
fn list(
    texts: &Texts,
    planned: Result<u32, TextRefusal>,
    area: &[u32],
    from: u32,
    out: &mut Window,
) -> Option<usize>
    requires { shown texts.now.catalog.now texts.now.statement.now (told planned) area.now
        ≡ listing texts.now.catalog.now texts.now.statement.now }
    ensures { Holds (drop from (listing texts.now.catalog.now texts.now.statement.now)) out.new result }
{
    list_outcome(texts, Outcome::from(planned), area, from, out)
}

// Writes a window of the listing; whether another is to follow.
fn print_window<W: Write>(
    to: &mut W,
    texts: &Texts,
    planned: Result<u32, TextRefusal>,
    area: &[u32],
    from: u32,
) -> io::Result<bool>
    requires { shown texts.now.catalog.now texts.now.statement.now (told planned) area.now
        ≡ listing texts.now.catalog.now texts.now.statement.now }
    ensures { IfOk result (λ more. Appends (W.contents to.old) (W.contents to.new)
        (window_of more (drop from (listing texts.now.catalog.now texts.now.statement.now)))) }
{
    let mut out = [0u8; WINDOW];
    match list(texts, planned, area, from, &mut out) {
        Some(n) => {
            to.write_all(&out[..n])?;
            Ok(false)
        }
        None => {
            to.write_all(&out)?;
            Ok(true)
        }
    }
}

// Writes the listing, window after window.
fn print<W: Write>(
    to: &mut W,
    texts: &Texts,
    planned: Result<u32, TextRefusal>,
    area: &[u32],
) -> io::Result<()>
    requires { shown texts.now.catalog.now texts.now.statement.now (told planned) area.now
        ≡ listing texts.now.catalog.now texts.now.statement.now }
    ensures { OnOk result (Appends (W.contents to.old) (W.contents to.new)
        (listing texts.now.catalog.now texts.now.statement.now)) }
{
    for k in 0..MOST_WINDOWS {
        if !print_window(to, texts, planned, area, k * WINDOW as u32)? {
            return Ok(());
        }
    }
    Err(io::Error::other("the listing is too long"))
}

// Writes the n-th line of a text; nothing where there is none.
fn show_line<W: Write>(to: &mut W, text: &[u8], n: u32) -> io::Result<()>
    ensures { OnOk result (Appends (W.contents to.old) (W.contents to.new) (shown_line (nth_line text.now n))) }
{
    let line = line_at(text, n);
    if line.is_empty() {
        return Ok(());
    }
    to.write_all(line)?;
    to.write_all(b"\n")
}

// The bytes of one of the texts.
#[tactic(auto, unfolding(numbers::specs::Texts::text_of, text::specs::Reading::text_of))]
fn text_of<'t>(texts: &Texts<'t>, text: Text) -> &'t [u8]
    ensures { result.now ≡ text_of (code.text_of text) texts.now.catalog.now texts.now.statement.now }
{
    match text {
        Text::Catalog => texts.catalog,
        Text::Statement => texts.statement,
    }
}

// Writes the record that a refusal points at, for whoever has to mend it.
fn show_record<W: Write>(
    to: &mut W,
    texts: &Texts,
    planned: Result<u32, TextRefusal>,
) -> io::Result<()>
    ensures { OnOk result (Appends (W.contents to.old) (W.contents to.new)
        (shown_record texts.now.catalog.now texts.now.statement.now (told planned))) }
{
    match planned {
        Ok(_) => Ok(()),
        Err(refusal) => show_line(to, text_of(texts, refusal.text), refusal.line),
    }
}

// Plans both texts and writes the listing; of a refusal also the record that it points at.
fn plan<O: Write, E: Write>(out: &mut O, errors: &mut E, texts: &Texts) -> Result<()>
    ensures printed { OnOk result (Appends (O.contents out.old) (O.contents out.new)
        (listing texts.now.catalog.now texts.now.statement.now)) }
    ensures shown { OnOk result (Appends (E.contents errors.old) (E.contents errors.new)
        (fault_record texts.now.catalog.now texts.now.statement.now)) }
{
    let mut area = [0u32; LEAST_AREA];
    let planned = planner::plan(texts, &mut area);
    let printed = print(out, texts, planned, &area);
    let shown = show_record(errors, texts, planned);
    printed.context("standard output")?;
    shown.context("standard error")?;
    Ok(())
}

fn main(rt: HostRuntime) -> Result<()> {
    let mut file = File::open(&rt, "catalog.txt").context("catalog.txt")?;
    let (mut catalog, mut statement) = ([0u8; SIZE], [0u8; SIZE]);
    let texts = input::read_texts(&mut file, &mut rt.stdin(), &mut catalog, &mut statement)?;
    plan(&mut rt.stdout(), &mut rt.stderr(), &texts)
}
