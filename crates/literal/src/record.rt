// The record of a literal, in the catalog or the statement.
ghost use Rattle.std.specs.Prelude.{◌≡◌, ℕ, ◌≤◌, length};
ghost use Rattle.rules.specs.Limits.{most_bytes};
ghost use Rattle.rules.specs.Refusals.{Text};
ghost use Rattle.rules.specs.Lists.{Bytes, map_option, named};
ghost use Rattle.rules.specs.Schema as rules;
ghost use Rattle.rules.specs.Reader.{base_address, line_here, one_of, flags, literals};
ghost use Rattle.text.specs.Lines.{Fields};
ghost use Rattle.text.specs.Reading.{place};
ghost use Rattle.literal.specs.Records.{IsLiteral};

use numbers::literals::{Literal, LiteralKind};
use text::{Line, words};

// A boolean by its field.
fn flag(word: &[u8]) -> Option<Literal>
    ensures { (base : ℕ) (t : Bytes) → IsLiteral base t (map_option rules.bool (named flags word.now)) result }
{
    let table: [(&[u8], bool); 2] = [(b"t", true), (b"f", false)];
    let set = words::beside(&table, word)?;
    Some(Literal {
        kind: LiteralKind::Bool,
        first: u32::from(set),
        second: 0,
    })
}

// The literal record at a position, by its fields, of the text whose bytes have the addresses from `base` on.
pub fn literal_at(t: &[u8], base: u32, p: usize, f: &Line) -> Option<Literal>
    requires inside { (length t.now ≤ most_bytes) × (p ≤ length t.now) × (base ≤ most_bytes) }
    requires fields { Fields t.now p f.now }
    ensures { (k : Text) (l c n : ℕ) → base_address k ≡ base → IsLiteral base t.now (one_of literals (line_here
        (place k t.now p l c n))) result }
{
    let word = text::packed(f.field(t, 0));
    if word == words::NULL {
        return match f.count {
            1 => Some(Literal {
                kind: LiteralKind::Null,
                first: 0,
                second: 0,
            }),
            _ => None,
        };
    }
    if f.count != 2 {
        return None;
    }
    let value = f.field(t, 1);
    match word {
        words::BOOL => flag(value),
        words::INT => Some(Literal::of_bits(LiteralKind::Int, crate::int(value)?)),
        words::FLOAT => Some(Literal::of_bits(LiteralKind::Float, crate::float(value)?)),
        words::TEXT => Some(Literal {
            kind: LiteralKind::Text,
            first: base + f.fields[1].start as u32,
            second: f.fields[1].length as u32,
        }),
        _ => None,
    }
}
