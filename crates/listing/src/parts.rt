// The repeated parts of a node's line: numbers, aggregate functions, items, keys, targets and rows.
ghost use Rattle.std.specs.Prelude.{[], ◌∷◌};
ghost use Rattle.rules.specs.Area.{option_number};
ghost use Rattle.numbers.specs.Options.{option_of};
ghost use Rattle.listing.specs.Fields.{Fields, FieldsIn};
ghost use Rattle.listing.specs.Lines.{each};
ghost use Rattle.listing.specs.Nodes.{given_fields, number_fields, function_fields, functions_fields};
ghost use Rattle.listing.specs.Nodes.{item_fields, items_fields, key_fields, keys_fields, target_fields, targets_fields};
ghost use Rattle.listing.specs.Nodes.{row_fields};
ghost use Rattle.listing.specs.Places.{alias_of};
ghost use Rattle.listing.specs.Rows.{row_field};

use crate::cells::optional_place_at;
use crate::put::Writer;
use numbers::number;
use numbers::options::of_number;
use text::places::Place;

// The loops below differ in one call: a function that takes it as a closure is no plainer.
impl<'a> Writer<'a> {
    // An alias, where there is one.
    pub fn alias(&mut self, alias: Option<Place>)
        ensures { FieldsIn self.old self.new (λ c q. alias_of c q alias) }
    {
        if let Some(alias) = alias {
            self.field(b"as");
            self.place(alias);
        }
    }

    // A number, where there is one.
    pub fn given(&mut self, n: Option<u32>)
        ensures { Fields self.old self.new (given_fields (option_number (option_of n))) }
    {
        if let Some(n) = n {
            self.number(n);
        }
    }

    // The first n numbers: by index, as those past the slice's end are 0.
    pub fn numbers(&mut self, n: u32, s: &[u32])
        ensures { Fields self.old self.new (each n 1 number_fields s.now) }
    {
        for i in 0..n {
            self.number(number(s, i as usize));
        }
    }

    // An aggregate function and its cell.
    fn function(&mut self, s: &[u32])
        ensures { Fields self.old self.new (function_fields 0 s.now) }
    {
        self.word(
            &[b"", b"avg", b"count", b"max", b"min", b"sum"],
            number(s, 0),
        );
        self.number(number(s, 1));
    }

    pub fn functions(&mut self, s: &[u32])
        ensures { Fields self.old self.new (functions_fields s.now) }
    {
        for function in s.chunks_exact(2) {
            self.function(function);
        }
    }

    // A projected cell and its alias.
    fn item(&mut self, s: &[u32])
        ensures { FieldsIn self.old self.new (λ c q. item_fields c q 0 s.now) }
    {
        self.number(number(s, 0));
        self.alias(optional_place_at(s, 1));
    }

    pub fn items(&mut self, s: &[u32])
        ensures { FieldsIn self.old self.new (λ c q. items_fields c q s.now) }
    {
        for item in s.chunks_exact(3) {
            self.item(item);
        }
    }

    // A key and its direction.
    fn key(&mut self, s: &[u32])
        ensures { Fields self.old self.new (key_fields 0 s.now) }
    {
        self.number(number(s, 0));
        self.word(&[b"asc", b"desc"], number(s, 1));
    }

    pub fn keys(&mut self, s: &[u32])
        ensures { Fields self.old self.new (keys_fields s.now) }
    {
        for key in s.chunks_exact(2) {
            self.key(key);
        }
    }

    // A source column's target, or that it is dropped.
    fn column_target(&mut self, target: Option<u32>)
        ensures { Fields self.old self.new (target_fields 0 (option_number (option_of target) ∷ [])) }
    {
        match target {
            Some(column) => self.number(column),
            None => self.field(b"-"),
        }
    }

    pub fn targets(&mut self, s: &[u32])
        ensures { Fields self.old self.new (targets_fields s.now) }
    {
        for x in s {
            self.column_target(of_number(*x));
        }
    }

    // A number of the rows of values, as many left of its row: a row's length if none is.
    fn row(&mut self, left: u32, x: u32)
        ensures { Fields self.old self.new (row_field left x) }
    {
        if left == 0 {
            self.field(b"row");
        }
        self.number(x);
    }

    pub fn rows(&mut self, s: &[u32])
        ensures { Fields self.old self.new (row_fields 0 s.now) }
    {
        let mut left: u32 = 0;
        for x in s {
            self.row(left, *x);
            left = left.checked_sub(1).unwrap_or(*x);
        }
    }
}
