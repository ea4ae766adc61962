// The line texts: bytes, lines and their fields, keywords, names and decimals.
#![tactic(auto)]

ghost use Rattle.std.specs.Prelude.{◌≡◌, ℕ, ◌+◌, ◌*◌, ◌<◌, min, take, drop};
ghost use Rattle.rules.specs.Lists.{same, map_option};
ghost use Rattle.rules.specs.Lines as rules;
ghost use Rattle.rules.specs.Reader as reader;
ghost use Rattle.text.specs.Bytes.{stop_at};
ghost use Rattle.text.specs.Lines.{line_end, nth_field, Fields, few_fields};
ghost use Rattle.text.specs.Words.{find, words_of};
ghost use Rattle.text.specs.Packed.{Packed};
ghost use Rattle.text.specs.Numbers.{is_name};
ghost use Rattle.numbers.specs.Options.{option_of};
ghost use Rattle.text.specs.Order.{order_of};

use std::cmp::Ordering;

pub mod places; // places.rt: places in both texts
pub mod words; // words.rt: keywords as numbers

// Most bytes a text, and the address of the statement's first byte.
pub const MOST_BYTES: u32 = 65536;

// Most bytes a name.
pub const MOST_NAME_BYTES: usize = 64;

// Most expression cells a statement.
pub const MOST_CELLS: u64 = 512;

// The fields of a line that are kept: a record has at most nine.
const KEPT_FIELDS: usize = 10;

// The n bytes at a, or as many of them as there are.
pub fn part(t: &[u8], a: usize, n: usize) -> &[u8]
    ensures { result.now ≡ take n (drop a t.now) }
{
    let start = a.min(t.len());
    let end = start + n.min(t.len() - start);
    &t[start..end]
}

// Where, from a position on, the first byte that is x or y stands, or the end of the text.
pub fn stop_at(t: &[u8], at: usize, x: u8, y: u8) -> usize
    ensures { result ≡ stop_at x y t.now at }
{
    // counted by hand: with a `for` over at..t.len() the fields of a line take 1.2 to 1.4 times as long
    let mut i = at;
    while i < t.len() {
        let b = t[i];
        if b == x || b == y {
            return i;
        }
        i += 1;
    }
    i
}

// The position behind the line at a position.
pub fn line_end(t: &[u8], at: usize) -> usize
    ensures { result ≡ line_end t.now at }
{
    let e = stop_at(t, at, b'\n', b'\n');
    if e < t.len() {
        return e + 1;
    }
    e
}

// Where a field starts in the text that it is of, and how many bytes it has.
#[derive(Clone, Copy, Debug, PartialEq, Eq)]
pub struct Field {
    pub start: usize,
    pub length: usize,
}

// What the fields of a line hold from its count on, where nothing else was put.
const UNUSED: Field = Field {
    start: 0,
    length: 0,
};

// The first ten fields of a line, how many it has of these, and the position behind the line. What the fields hold from the
// count on means nothing. (Apart from its text: as one value with it, which was tried, reading takes 1.25 times as long, since the
// line is copied into that.)
#[derive(Clone, Copy, Debug, PartialEq, Eq)]
pub struct Line {
    pub fields: [Field; 12],
    pub count: usize,
    pub next: usize,
}

impl Line {
    // The bytes of field i, in the text that the line is of.
    pub fn field<'t>(&self, t: &'t [u8], i: usize) -> &'t [u8]
        requires { i < 12 }
        ensures { result.now ≡ take (nth_field self.now.fields i).length (drop (nth_field self.now.fields i).start t.now) }
    {
        let field = self.fields[i];
        part(t, field.start, field.length)
    }
}

// The fields of the line at a position, of any line. A line that no LF closes has two empty fields more.
#[tactic(auto, using(crate::specs::Bytes::stops))]
fn any_fields(t: &[u8], at: usize) -> Line
    ensures { Fields t.now at result }
{
    let mut fields = [UNUSED; 12];
    let mut p = at;
    for n in 0..KEPT_FIELDS {
        let e = stop_at(t, p, b'\n', b'\t');
        fields[n] = Field {
            start: p,
            length: e - p,
        };
        if t.len() <= e {
            let empty = Field {
                start: e,
                length: 0,
            };
            fields[n + 1] = empty;
            fields[n + 2] = empty;
            let count = KEPT_FIELDS.min(n + 3);
            return Line {
                fields,
                count,
                next: e,
            };
        }
        if t[e] == b'\n' {
            return Line {
                fields,
                count: n + 1,
                next: e + 1,
            };
        }
        p = e + 1;
    }
    let next = line_end(t, p);
    Line {
        fields,
        count: KEPT_FIELDS,
        next,
    }
}

// A line of at most four fields.
fn few(f: [Field; 4], count: usize, next: usize) -> Line
    ensures { result ≡ few_fields f count next }
{
    Line {
        fields: [
            f[0], f[1], f[2], f[3], UNUSED, UNUSED, UNUSED, UNUSED, UNUSED, UNUSED, UNUSED, UNUSED,
        ],
        count,
        next,
    }
}

// The fields of the line at a position. Most lines have at most four and a LF: by the loop alone reading a catalog takes
// 1.6 times as long.
#[tactic(auto, using(crate::specs::Bytes::stops))]
pub fn fields(t: &[u8], at: usize) -> Line
    ensures { Fields t.now at result }
{
    let e = stop_at(t, at, b'\n', b'\t');
    if e < t.len() {
        let first = Field {
            start: at,
            length: e - at,
        };
        if t[e] == b'\n' {
            return few([first, UNUSED, UNUSED, UNUSED], 1, e + 1);
        }
        let b = e + 1;
        let f = stop_at(t, b, b'\n', b'\t');
        if f < t.len() {
            let second = Field {
                start: b,
                length: f - b,
            };
            if t[f] == b'\n' {
                return few([first, second, UNUSED, UNUSED], 2, f + 1);
            }
            let c = f + 1;
            let g = stop_at(t, c, b'\n', b'\t');
            if g < t.len() {
                let third = Field {
                    start: c,
                    length: g - c,
                };
                if t[g] == b'\n' {
                    return few([first, second, third, UNUSED], 3, g + 1);
                }
                let d = g + 1;
                let h = stop_at(t, d, b'\n', b'\t');
                if h < t.len() {
                    if t[h] == b'\n' {
                        let fourth = Field {
                            start: d,
                            length: h - d,
                        };
                        return few([first, second, third, fourth], 4, h + 1);
                    }
                }
            }
        }
    }
    any_fields(t, at)
}

// Whether two byte strings are the same. The last bytes first: names of one length differ mostly there, and by `==` those of
// eight bytes that differ in the last two take twice as long. By an iterator from the end, `x.iter().rev().eq(y.iter().rev())`,
// names of one length take 1.3 times as long, and by `zip`, `rev` and `all` 2.4 times.
pub fn equal(x: &[u8], y: &[u8]) -> bool
    ensures { result ≡ same x.now y.now }
{
    if x.len() != y.len() {
        return false;
    }
    for i in (0..x.len()).rev() {
        if x[i] != y[i] {
            return false;
        }
    }
    true
}

// The order of two byte strings, a proper prefix first.
pub fn compare(x: &[u8], y: &[u8]) -> Ordering
    ensures { result ≡ order_of x.now y.now }
{
    x.cmp(&y)
}

// Which of some words, each closed by a blank, the n bytes at a are: its number, or how many words there are.
pub fn which(words: &[u8], t: &[u8], a: usize, n: usize) -> usize
    ensures { result ≡ find (words_of words.now) (take n (drop a t.now)) }
{
    let x = part(t, a, n);
    let mut k = 0;
    let mut i = 0;
    while i < words.len() {
        let e = stop_at(words, i, b' ', b' ');
        if equal(&words[i..e], x) {
            return k;
        }
        i = e + 1;
        k += 1;
    }
    k
}

// Numbers below this have room for a byte more.
const ROOM: u64 = 0x100000000000000;

// Bytes as one number, the first byte lowest, with a 1 above the last; 0, which no word has, where there are more than seven.
// An Option is no plainer: callers compare the number with those of words.
pub fn packed(word: &[u8]) -> u64
    ensures { Packed word.now result }
{
    let mut v: u64 = 1;
    for &b in word.iter().rev() {
        if ROOM <= v {
            return 0;
        }
        v = v * 256 + b as u64;
    }
    v
}

// Whether a name may have n bytes.
#[tactic(auto, unfolding(crate::specs::Numbers::is_name))]
pub fn is_name(n: usize) -> bool
    ensures { result ≡ is_name n }
{
    1 <= n && n <= MOST_NAME_BYTES
}

// One digit more, `most` at most.
fn push_digit(v: u64, d: u64, most: u64) -> u64
    ensures { result ≡ min most (v * 10 + d) }
{
    v.saturating_mul(10).saturating_add(d).min(most)
}

fn digits(x: &[u8], most: u64) -> Option<u64>
    ensures { option_of result ≡ map_option (min most) (rules.digits 0 x.now) }
{
    let mut v = 0;
    for &b in x {
        if !b.is_ascii_digit() {
            return None;
        }
        v = push_digit(v, (b - b'0') as u64, most);
    }
    Some(v)
}

// The decimal that bytes are, of any length: `most` stands for all above it.
pub fn decimal(x: &[u8], most: u64) -> Option<u64>
    ensures { option_of result ≡ map_option (min most) (rules.decimal x.now) }
{
    match x {
        [] | [b'0', _, ..] => None,
        _ => digits(x, most),
    }
}

// The count or position that bytes are: 513 stands for all above 512.
#[tactic(auto, unfolding(rules::specs::Reader::count_field))]
pub fn count(word: &[u8]) -> Option<u64>
    ensures { (o : ℕ) → option_of result ≡ reader.count_field (record { bytes = word.now; start = o }) }
{
    decimal(word, MOST_CELLS + 1)
}
