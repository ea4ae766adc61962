// Bytes and fields that are put into a window, one behind the other.
ghost use Rattle.std.specs.Prelude.{◌≡◌, [], ◌∷◌};
ghost use Rattle.rules.specs.Places.{bytes_at};
ghost use Rattle.rules.specs.Print.{decimal_of, integer_of, hex_of};
ghost use Rattle.numbers.specs.Bits.{signed};
ghost use Rattle.listing.specs.Put.{Puts};
ghost use Rattle.listing.specs.Fields.{Fields, FieldsIn};
ghost use Rattle.listing.specs.Words.{word_at};

use text::places::{Place, Texts};

// A window, how many bytes there are from the next one to the window's end, and both texts, into which addresses point. Bytes
// before the window, and those behind it, are passed over.
#[derive(Drop)]
pub struct Writer<'a> {
    pub window: &'a mut [u8],
    pub left: usize,
    pub texts: Texts<'a>,
}

impl<'a> Writer<'a> {
    pub fn byte(&mut self, b: u8)
        ensures { Puts self.old self.new (b ∷ []) }
    {
        if self.left == 0 {
            return;
        }
        if self.left <= self.window.len() {
            let i = self.window.len() - self.left;
            self.window[i] = b;
        }
        self.left -= 1;
    }

    pub fn bytes(&mut self, bytes: &[u8])
        ensures { Puts self.old self.new bytes.now }
    {
        for byte in bytes {
            self.byte(*byte);
        }
    }

    // The digits of a number.
    fn decimal(&mut self, n: u64)
        ensures { Puts self.old self.new (decimal_of n) }
    {
        let mut digits = [0u8; 20];
        let k = io::decimal(n, &mut digits);
        self.bytes(&digits[..k]);
    }

    // A tab and a field behind it.
    pub fn field(&mut self, field: &[u8])
        ensures { Fields self.old self.new (field.now ∷ []) }
    {
        self.byte(b'\t');
        self.bytes(field);
    }

    // The field of a number of 64 bits.
    pub fn long(&mut self, n: u64)
        ensures { Fields self.old self.new (decimal_of n ∷ []) }
    {
        self.byte(b'\t');
        self.decimal(n);
    }

    pub fn number(&mut self, n: u32)
        ensures { Fields self.old self.new (decimal_of n ∷ []) }
    {
        self.long(u64::from(n));
    }

    // The field of an integer, from its 64 bits.
    pub fn integer(&mut self, n: u64)
        ensures { Fields self.old self.new (integer_of (signed n) ∷ []) }
    {
        if n < 0x8000000000000000 {
            return self.long(n);
        }
        self.byte(b'\t');
        self.byte(b'-');
        self.decimal(n.wrapping_neg());
    }

    // The field of a float's bits: 16 hexadecimal digits.
    pub fn bits(&mut self, n: u64)
        ensures { Fields self.old self.new (hex_of 16 n [] ∷ []) }
    {
        let mut digits = [0u8; 16];
        let k = io::hex(n, 16, &mut digits);
        self.field(&digits[..k]);
    }

    // The field that is the k-th of some words: a word's place in the list is the number as the plan has it.
    pub fn word(&mut self, words: &[&[u8]], k: u32)
        ensures { Fields self.old self.new (word_at words.now k ∷ []) }
    {
        self.field(nth_word(words, k));
    }

    // The field of the bytes at a place of the texts, or as many of them as there are.
    pub fn place(&mut self, place: Place)
        ensures { FieldsIn self.old self.new (λ c q. bytes_at c q place.address place.length ∷ []) }
    {
        let texts = self.texts;
        self.field(texts.bytes_at(place));
    }
}

// The k-th of some words, and no byte past them.
pub fn nth_word<'a>(words: &[&'a [u8]], k: u32) -> &'a [u8]
    ensures { result.now ≡ word_at words.now k }
{
    words.get(k as usize).copied().unwrap_or(b"")
}
