// The statement's own lines.
ghost use Rattle.rules.specs.Area.{option_number};
ghost use Rattle.numbers.specs.Options.{option_of};
ghost use Rattle.listing.specs.Fields.{FieldsIn};
ghost use Rattle.listing.specs.Lines.{Lines, LinesIn};
ghost use Rattle.listing.specs.Own.{name_line, table_line, pair_line, pair_lines, map_lines, column_line};
ghost use Rattle.listing.specs.Own.{default_line, column_lines, columns_lines, drop_line, create_lines, insert_lines};
ghost use Rattle.listing.specs.Own.{update_lines, own_lines};
ghost use Rattle.listing.specs.Places.{reference_of};
ghost use Rattle.plan.specs.Kinds.{statement_number};

use crate::cells::{optional_place_at, place_at, tail};
use crate::put::{Writer, nth_word};
use numbers::number;
use numbers::options::of_number;
use plan::finish::Kind;
use text::places::Place;

// How many numbers a created column has, and where its default stands among them.
const COLUMN: usize = 12;

const DEFAULT: usize = 8;

impl<'a> Writer<'a> {
    // A line of a word, a name and a number.
    fn name_line(&mut self, first: &[u8], n: u32, s: &[u32])
        ensures { LinesIn self.old self.new (λ c q. name_line c q first.now n s.now) }
    {
        self.bytes(first);
        self.place(place_at(s, 0));
        self.number(n);
        self.byte(b'\n');
    }

    // The line of a delete or an update: the table, its key and the source.
    fn table_line(&mut self, first: &[u8], n: u32, s: &[u32])
        ensures { LinesIn self.old self.new (λ c q. table_line c q first.now n s.now) }
    {
        self.bytes(first);
        self.place(place_at(s, 0));
        self.number(number(s, 2));
        self.number(n);
        self.byte(b'\n');
    }

    // A line of a word and two numbers.
    fn pair(&mut self, first: &[u8], s: &[u32])
        ensures { Lines self.old self.new (pair_line first.now 0 s.now) }
    {
        self.bytes(first);
        self.number(number(s, 0));
        self.number(number(s, 1));
        self.byte(b'\n');
    }

    // The lines of n pairs: by index, as numbers past the slice's end are 0.
    fn pairs(&mut self, first: &[u8], n: u32, s: &[u32])
        ensures { Lines self.old self.new (pair_lines first.now n s.now) }
    {
        for i in 0..n {
            self.pair(first, tail(s, i as usize * 2));
        }
    }

    // An insert's column map by its length, where there is one.
    fn map(&mut self, n: Option<u32>, s: &[u32])
        ensures { Lines self.old self.new (map_lines (option_number (option_of n)) s.now) }
    {
        if let Some(n) = n {
            self.bytes(b"columns");
            self.number(n);
            self.byte(b'\n');
            self.pairs(b"map", n, s);
        }
    }

    // A reference, where there is one.
    #[tactic(auto, unfolding(crate::specs::Places::reference_of))]
    fn reference(&mut self, reference: Option<Place>)
        ensures { FieldsIn self.old self.new (λ c q. reference_of c q reference) }
    {
        if let Some(reference) = reference {
            self.place(reference);
        }
    }

    // The line of a created column.
    fn column(&mut self, s: &[u32])
        ensures { LinesIn self.old self.new (λ c q. column_line c q s.now) }
    {
        self.bytes(b"column");
        self.place(place_at(s, 0));
        self.word(&[b"", b"bool", b"int", b"float", b"text"], number(s, 2));
        self.word(&[b"notnull", b"null"], number(s, 3));
        self.word(&[b"-", b"unique"], number(s, 4));
        self.word(&[b"-", b"index"], number(s, 5));
        self.reference(optional_place_at(s, 6));
        self.byte(b'\n');
    }

    // The line of a column's default.
    fn default(&mut self, s: &[u32])
        ensures { LinesIn self.old self.new (λ c q. default_line c q s.now) }
    {
        self.bytes(nth_word(
            &[b"nodefault", b"null", b"bool", b"int", b"float", b"text"],
            number(s, 0),
        ));
        self.constant(s);
        self.byte(b'\n');
    }

    // The two lines of a created column.
    fn created(&mut self, s: &[u32])
        ensures { LinesIn self.old self.new (λ c q. column_lines c q 0 s.now) }
    {
        self.column(s);
        self.default(tail(s, DEFAULT));
    }

    // The lines of n created columns, by index as pairs are.
    fn columns(&mut self, n: u32, s: &[u32])
        ensures { LinesIn self.old self.new (λ c q. columns_lines c q n s.now) }
    {
        for i in 0..n {
            self.created(tail(s, i as usize * COLUMN));
        }
    }

    fn dropped(&mut self, s: &[u32])
        ensures { LinesIn self.old self.new (λ c q. drop_line c q s.now) }
    {
        self.bytes(b"drop");
        self.place(place_at(s, 0));
        self.word(&[b"no", b"yes"], number(s, 2));
        self.byte(b'\n');
    }

    fn create(&mut self, s: &[u32])
        ensures { LinesIn self.old self.new (λ c q. create_lines c q s.now) }
    {
        self.name_line(b"create", number(s, 2), s);
        self.columns(number(s, 3), tail(s, 4));
    }

    fn insert(&mut self, n: u32, s: &[u32])
        ensures { LinesIn self.old self.new (λ c q. insert_lines c q n s.now) }
    {
        self.name_line(b"insert", n, s);
        self.map(of_number(number(s, 2)), tail(s, 3));
    }

    fn update(&mut self, n: u32, s: &[u32])
        ensures { LinesIn self.old self.new (λ c q. update_lines c q n s.now) }
    {
        self.table_line(b"update", n, s);
        self.pairs(b"set", number(s, 3), tail(s, 4));
    }

    // By the statement's kind, its source n and its own numbers.
    #[tactic(auto, using(crate::specs::Lines::lines_none), unfolding(crate::specs::Own::own_lines, crate::specs::Choices::choose, rules::specs::Lines::bytes))]
    pub fn own(&mut self, kind: Kind, n: u32, s: &[u32])
        ensures { LinesIn self.old self.new (λ c q. own_lines c q (statement_number kind) n s.now) }
    {
        match kind {
            Kind::Select => {}
            Kind::Create => self.create(s),
            Kind::Drop => self.dropped(s),
            Kind::Delete => self.table_line(b"delete", n, s),
            Kind::Insert => self.insert(n, s),
            Kind::Update => self.update(n, s),
        }
    }
}
