// Reads `catalog.txt` where it runs and a statement on standard input, and prints what was read or why it is refused.
#![tactic(auto)]

ghost use Rattle.std.specs.Prelude.{◌≤◌, length, take, ◌≡◌, OnOk};
ghost use Rattle.std.specs.Io.KnownBytes.{Appends};
ghost use Rattle.io.specs.Counts.{IsPrefixLen};
ghost use Rattle.schema.specs.Room.{numbers_for};
ghost use Rattle.reader.specs.Texts.{read_texts};
ghost use Rattle.read_texts.specs.Line.{printed};

use anyhow::{Context, Result};
use input::SIZE;
use schema::NUMBERS;
use schema::read::{SMALL_NUMBERS, numbers_for};
use statement::{CELL_NUMBERS, FROM_NUMBERS, PART_NUMBERS};
use std::fs::File;
use std::io::Write;
use text::places::Texts;

mod line; // line.rt: the line that is printed

// The line to print of two texts, at the start of `out`; `tables` has enough numbers for the catalog.
fn answer_with(texts: &Texts, tables: &mut [u32], out: &mut [u8; 64]) -> usize
    requires { numbers_for (length texts.now.catalog.now) ≤ length tables.old }
    ensures { IsPrefixLen result out.new × (take result out.new ≡ printed
        (read_texts texts.now.catalog.now texts.now.statement.now)) }
{
    let mut cells = [0u32; CELL_NUMBERS];
    let mut froms = [0u32; FROM_NUMBERS];
    let mut parts = [0u32; PART_NUMBERS];
    let t = reader::read_texts(texts, tables, &mut cells, &mut froms, &mut parts);
    line::put_texts(t, out)
}

// The line to print of two texts, at the start of `out`.
fn answer(texts: &Texts, out: &mut [u8; 64]) -> usize
    ensures { IsPrefixLen result out.new × (take result out.new ≡ printed
        (read_texts texts.now.catalog.now texts.now.statement.now)) }
{
    if numbers_for(texts.catalog.len()) <= SMALL_NUMBERS {
        let mut tables = [0u32; SMALL_NUMBERS];
        return answer_with(texts, &mut tables, out);
    }
    let mut tables = [0u32; NUMBERS];
    answer_with(texts, &mut tables, out)
}

// Writes what was read or why it is refused.
fn print<W: Write>(to: &mut W, texts: &Texts) -> std::io::Result<()>
    ensures { OnOk result (Appends (W.contents to.old) (W.contents to.new)
        (printed (read_texts texts.now.catalog.now texts.now.statement.now))) }
{
    let mut out = [0u8; 64];
    let n = answer(texts, &mut out);
    to.write_all(&out[..n])
}

fn main(rt: HostRuntime) -> Result<()> {
    let mut file = File::open(&rt, "catalog.txt").context("catalog.txt")?;
    let (mut catalog, mut statement) = ([0u8; SIZE], [0u8; SIZE]);
    let texts = input::read_texts(&mut file, &mut rt.stdin(), &mut catalog, &mut statement)?;
    print(&mut rt.stdout(), &texts).context("standard output")
}
