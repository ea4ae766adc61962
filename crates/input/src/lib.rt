// What a reader has, and a text from one, read as far as it takes to see that it is too long.
#![tactic(auto)]

ghost use Rattle.std.specs.Prelude.{IfOk};
ghost use Rattle.input.specs.Input.{Within, Whole, Took, Gave};

use anyhow::{Context, Result};
use std::io;
use std::io::Read;
use text::places::Texts;

pub const SIZE: usize = 65537;

// Room for a text of the most bytes, and for the byte that makes it too long.
pub type Buffer = [u8; SIZE];

// How many of the reader's bytes stand at the start of `text`: all to the reader's end, or as many as `text` has room for.
pub fn fill<R: Read>(from: &mut R, text: &mut [u8]) -> io::Result<usize>
    ensures within { Within text.new result }
    ensures took { Took (R.remaining from.old) (R.remaining from.new) text.new result }
{
    // A read takes as many bytes as came, so no `for` counts them; `read_exact` would refuse a reader that has fewer.
    let mut done: usize = 0;
    while done < text.len() {
        let n = from.read(&mut text[done..])?;
        if n == 0 {
            return Ok(done);
        }
        done += n;
    }
    Ok(done)
}

// How many bytes a text has: all of the reader's, or more than a text may have.
pub fn read_text<R: Read>(from: &mut R, text: &mut Buffer) -> io::Result<usize>
    ensures whole { Whole text.new result }
    ensures took { Took (R.remaining from.old) (R.remaining from.new) text.new result }
{
    fill(from, text)
}

// Both texts, each in a buffer that is lent: the catalog's from the file, the statement's from the standard input.
pub fn read_texts<'t, C: Read, S: Read>(
    file: &mut C,
    stdin: &mut S,
    catalog: &'t mut Buffer,
    statement: &'t mut Buffer,
) -> Result<Texts<'t>>
    ensures { IfOk result (λ texts. Gave (C.remaining file.old) (C.remaining file.new) texts.catalog.now
        × Gave (S.remaining stdin.old) (S.remaining stdin.new) texts.statement.now) }
{
    let n = read_text(file, catalog).context("catalog.txt")?;
    let m = read_text(stdin, statement).context("standard input")?;
    Ok(Texts {
        catalog: &catalog[..n],
        statement: &statement[..m],
    })
}
