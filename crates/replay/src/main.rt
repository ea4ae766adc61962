// Replays the fixed list (host/answers/README.md): plans each case of `list.txt` where it runs and compares the listing with
// the answer on the list, byte for byte.
#![tactic(auto)]

ghost use Rattle.std.specs.Prelude.{◌≡◌, ◌<◌, length};
ghost use Rattle.rules.specs.Lists.{same};
ghost use Rattle.rules.specs.Listing.{listing};
ghost use Rattle.input.specs.Input.{Within};
ghost use Rattle.replay.specs.Cases.{case_at};
ghost use Rattle.replay.specs.Replay.{Ready, Stepped, replayed};

use answer_list::record_at;
use anyhow::{Context, bail};
use listing::WINDOW;
use plan_listing::list_plan;
use planner::LEAST_AREA;
use std::fs::File;
use std::io;
use std::io::{Read, Write};
use text::places::Texts;
use text::{equal, part};

// Room for the list, and for the byte that makes it too long.
const SIZE: usize = 1048577;

type List = [u8; SIZE];

// Whether the listing of both texts is what is expected.
fn agrees(texts: &Texts, expected: &[u8]) -> bool
    requires { length expected.now < 65536 }
    ensures { result ≡ same (listing texts.now.catalog.now texts.now.statement.now) expected.now }
{
    let mut area = [0u32; LEAST_AREA];
    let mut out = [0u8; WINDOW];
    match list_plan(texts, &mut area, &mut out) {
        Some(n) => equal(&out[..n], expected),
        None => false,
    }
}

// What comes of a case: whether it agrees, and the position behind it.
#[derive(Clone, Copy, Debug, PartialEq, Eq)]
struct Case {
    agrees: bool,
    next: usize,
}

// The case at a position, if the list is not damaged there. An answer that fills a window is not on the list.
fn case_at(list: &[u8], at: usize) -> Option<Case>
    ensures { result ≡ case_at list.now at }
{
    let record = record_at(list, at)?;
    if WINDOW <= record.answer {
        return None;
    }
    let statement = record.start + record.catalog;
    let answer = statement + record.statement;
    let texts = Texts {
        catalog: part(list, record.start, record.catalog),
        statement: part(list, statement, record.statement),
    };
    let agrees = agrees(&texts, part(list, answer, record.answer));
    Some(Case {
        agrees,
        next: answer + record.answer,
    })
}

// How far the list is replayed: the position of the next case, how many cases there were, and how many agree.
#[derive(Clone, Copy, Debug, PartialEq, Eq)]
struct Progress {
    at: usize,
    cases: usize,
    agree: usize,
}

// The list is damaged behind so many cases.
#[derive(Clone, Copy, Debug, PartialEq, Eq)]
struct Damaged {
    cases: usize,
}

// One case more, if the list is not damaged there.
fn step(list: &[u8], p: Progress) -> Option<Progress>
    requires { Ready list.now p }
    ensures { Stepped list.now p result }
{
    let case = case_at(list, p.at)?;
    Some(Progress {
        at: case.next,
        cases: p.cases + 1,
        agree: p.agree + usize::from(case.agrees),
    })
}

// All cases of the list, if it is nowhere damaged. The number of a case that differs is written, as long as that goes well.
fn replay<W: Write>(to: &mut W, list: &[u8]) -> (Result<Progress, Damaged>, io::Result<()>)
    ensures { result.0 ≡ replayed list.now }
{
    let mut written = Ok(());
    let mut p = Progress {
        at: 0,
        cases: 0,
        agree: 0,
    };
    // Where a case ends is known once it is read, so no `for` counts them.
    while p.at < list.len() {
        let Some(next) = step(list, p) else {
            return (Err(Damaged { cases: p.cases }), written);
        };
        if next.agree == p.agree && written.is_ok() {
            let n = next.cases;
            written = writeln!(to, "differs: case {n}");
        }
        p = next;
    }
    (Ok(p), written)
}

// What came of a replay.
fn tell<W: Write>(to: &mut W, replayed: Result<Progress, Damaged>) -> io::Result<()> {
    match replayed {
        Ok(Progress { cases: 0, .. }) => writeln!(to, "no cases: 0"),
        Ok(Progress { cases, agree, .. }) => {
            writeln!(to, "cases: {cases}")?;
            writeln!(to, "agree: {agree}")
        }
        Err(Damaged { cases }) => writeln!(to, "damaged behind case {cases}"),
    }
}

// Replays the list and writes what came of it.
fn report<W: Write>(to: &mut W, list: &[u8]) -> io::Result<()> {
    let (replayed, written) = replay(to, list);
    let told = tell(to, replayed);
    written?;
    told
}

// Apart from `main`: with the call in it the proof was tried, and did not close.
fn read_list<R: Read>(from: &mut R, list: &mut List) -> io::Result<usize>
    ensures { Within list.new result }
{
    input::fill(from, list)
}

fn main(rt: HostRuntime) -> anyhow::Result<()> {
    let mut list = [0u8; SIZE];
    let mut file = File::open(&rt, "list.txt").context("list.txt")?;
    let n = read_list(&mut file, &mut list).context("list.txt")?;
    if n == SIZE {
        bail!("list.txt: too long to be replayed");
    }
    report(&mut rt.stdout(), &list[..n]).context("standard output")
}
