// The lines of an area's cells: four numbers each, the first of them the kind.
ghost use Rattle.std.specs.Prelude.{◌≡◌, get_or, drop};
ghost use Rattle.listing.specs.Fields.{FieldsIn};
ghost use Rattle.listing.specs.Lines.{LinesIn};
ghost use Rattle.listing.specs.Places.{place_at, optional_place_at};
ghost use Rattle.listing.specs.Cells.{value_rest, cell_fields, cell_line, cell_lines};

use crate::put::Writer;
use numbers::halves::joined;
use numbers::literals::LiteralKind;
use numbers::number;
use plan::cells::{COLUMN, IS_NAN, IS_NULL};
use plan::{CELL_SIZE, HEADER_SIZE};
use text::places::Place;

// The first kind with two operands. What a cell has goes by ranges of kinds, so an enum of them all is no plainer.
const BINARY: u32 = 16;

// The numbers from p on.
pub fn tail(s: &[u32], p: usize) -> &[u32]
    ensures { result.now ≡ drop p s.now }
{
    &s[p.min(s.len())..]
}

// The place whose address is the number at p, and its length the one behind that.
pub fn place_at(s: &[u32], p: usize) -> Place
    ensures { result ≡ place_at s.now p }
{
    Place::at(tail(s, p), 0)
}

// The place that two numbers have as `place_at` says; none where its length is 0.
pub fn optional_place_at(s: &[u32], p: usize) -> Option<Place>
    ensures { result ≡ optional_place_at s.now p }
{
    let place = place_at(s, p);
    Place::of_numbers(place.address, place.length)
}

impl<'a> Writer<'a> {
    // What stands behind the kind of a constant, from its numbers.
    pub fn constant(&mut self, s: &[u32])
        ensures { FieldsIn self.old self.new (λ c q. value_rest c q (get_or s.now 0 0) s.now) }
    {
        let a = number(s, 1);
        let b = number(s, 2);
        match LiteralKind::of_number(number(s, 0)) {
            LiteralKind::Null => {}
            LiteralKind::Bool => self.word(&[b"f", b"t"], a),
            LiteralKind::Int => self.integer(joined(a, b)),
            LiteralKind::Float => self.bits(joined(a, b)),
            LiteralKind::Text => self.place(Place {
                address: a,
                length: b,
            }),
        }
    }

    // The fields of a cell, from its kind on.
    fn cell_fields(&mut self, s: &[u32])
        ensures { FieldsIn self.old self.new (λ c q. cell_fields c q s.now) }
    {
        let k = number(s, 0);
        self.word(
            &[
                b"", b"null", b"bool", b"int", b"float", b"text", b"col", b"", b"not", b"fact",
                b"ident", b"neg", b"sqrt", b"", b"is", b"is", b"and", b"or", b"eq", b"gt", b"lt",
                b"add", b"div", b"pow", b"mul", b"rem", b"sub", b"like",
            ],
            k,
        );
        if k < COLUMN {
            return self.constant(s);
        }
        self.number(number(s, 1));
        if k == IS_NULL {
            return self.field(b"null");
        }
        if k == IS_NAN {
            self.field(b"float");
            return self.bits(joined(number(s, 2), number(s, 3)));
        }
        if k < BINARY {
            return;
        }
        self.number(number(s, 2));
    }

    // The line of cell i.
    fn cell(&mut self, i: u32, s: &[u32])
        ensures { LinesIn self.old self.new (λ c q. cell_line c q i s.now) }
    {
        self.bytes(b"cell");
        self.number(i);
        self.cell_fields(s);
        self.byte(b'\n');
    }

    // The lines of the cells of an area: by index, which is a cell's number, and numbers past the area's end are 0.
    pub fn cells(&mut self, area: &[u32])
        ensures { LinesIn self.old self.new (λ c q. cell_lines c q area.now) }
    {
        let cells = tail(area, HEADER_SIZE);
        for i in 0..number(area, 2) {
            self.cell(i, tail(cells, i as usize * CELL_SIZE));
        }
    }
}
