// The line reader: document 01 asks for a struct that holds a lent text and the place where reading stands. Its
// methods are thin: each takes the reader apart and calls a function on the slice and the numbers. Other code calls `first_fields`
// and `line_at`, whose parameters are plain.
#![tactic(auto)]

ghost use Rattle.std.specs.Prelude.{◌≡◌, ◌+◌, ◌<◌, ◌^◌};
ghost use Rattle.text.specs.Lines.{Fields};
ghost use Rattle.lines.specs.Spans.{lines_end, span_at, line_span, nth_line};
ghost use Rattle.lines.specs.Readers.{at_start, lines_on};

// A text with a position in it and the number of the line that starts there, from 1.
#[derive(Clone, Copy, Debug, PartialEq, Eq)]
struct LineReader<'a> {
    text: &'a [u8],
    at: usize,
    line: u32,
}

// Where a line starts, and how many bytes it has without its LF.
#[derive(Clone, Copy, Debug, PartialEq, Eq)]
struct Span {
    start: usize,
    len: usize,
}

// THE CORE
// The position behind n lines. Behind the last line there are only empty ones.
fn lines_end(text: &[u8], at: usize, n: u32) -> usize
    ensures { result ≡ lines_end text.now at n }
{
    let mut p = at;
    for _ in 0..n {
        if text.len() <= p {
            return p;
        }
        p = text::line_end(text, p);
    }
    p
}

// The number of the line behind n lines.
fn counted(line: u32, n: u32) -> u32
    requires { line + n < 2 ^ 32 }
    ensures { result ≡ line + n }
{
    line + n
}

// Where the line at a position stands.
#[tactic(auto, using(text::specs::Bytes::stops))]
fn span_at(text: &[u8], at: usize) -> Span
    ensures { result ≡ span_at text.now at }
{
    let e = text::stop_at(text, at, b'\n', b'\n');
    Span {
        start: at,
        len: e - at,
    }
}

// THE READER
impl<'a> LineReader<'a> {
    // A reader at a text's first line.
    fn new(text: &'a [u8]) -> LineReader<'a>
        ensures { result ≡ at_start text.entry }
    {
        LineReader {
            text,
            at: 0,
            line: 1,
        }
    }

    // The fields of the line here.
    fn fields(self) -> text::Line
        ensures { Fields self.entry.text.now self.entry.at result }
    {
        text::fields(self.text, self.at)
    }

    // Where the line here stands.
    fn line_here(self) -> Span
        ensures { result ≡ span_at self.entry.text.now self.entry.at }
    {
        span_at(self.text, self.at)
    }

    // The reader n lines on.
    fn passed(self, n: u32) -> LineReader<'a>
        requires { self.line + n < 2 ^ 32 }
        ensures { result ≡ lines_on self.entry n }
    {
        let at = lines_end(self.text, self.at, n);
        let line = counted(self.line, n);
        LineReader {
            text: self.text,
            at,
            line,
        }
    }
}

// WITH PLAIN PARAMETERS
// The fields of a text's first line.
pub fn first_fields(text: &[u8]) -> text::Line
    ensures { Fields text.now 0 result }
{
    LineReader::new(text).fields()
}

// Where the line behind n lines of a text stands.
fn span_behind(text: &[u8], n: u32) -> Span
    requires { 1 + n < 2 ^ 32 }
    ensures { result ≡ span_at text.now (lines_end text.now 0 n) }
{
    LineReader::new(text).passed(n).line_here()
}

// Where the n-th line of a text stands, from 1: no bytes where there is none.
fn line_span(text: &[u8], n: u32) -> Span
    ensures { result ≡ line_span text.now n }
{
    if n == 0 {
        return Span { start: 0, len: 0 };
    }
    span_behind(text, n - 1)
}

// The n-th line of a text, from 1, without its LF: no bytes where there is none.
pub fn line_at(text: &[u8], n: u32) -> &[u8]
    ensures { result.now ≡ nth_line text.now n }
{
    let s = line_span(text, n);
    text::part(text, s.start, s.len)
}
