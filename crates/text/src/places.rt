// Both texts, and places in them: an address and a length. The catalog's bytes have the addresses from 0 on, the statement's
// those from 65,536 on.
ghost use Rattle.std.specs.Prelude.{◌≡◌, true, false, [], ◌∷◌, ◌+◌, ◌^◌, ◌≤◌, ◌<◌, length, get_or, MatchOption};
ghost use Rattle.rules.specs.Limits.{most_bytes};
ghost use Rattle.rules.specs.Lists.{same};
ghost use Rattle.rules.specs.Places.{bytes_at};
ghost use Rattle.text.specs.Numbers.{is_name};
ghost use Rattle.text.specs.Order.{order_of};
ghost use Rattle.text.specs.Places as places;

use super::{Field, MOST_BYTES, compare, equal, is_name, part};
use numbers::literals::Literal;
use numbers::number;
use std::cmp::Ordering;

// A place of no bytes by default.
#[derive(Clone, Copy, Debug, Default, PartialEq, Eq)]
pub struct Place {
    pub address: u32,
    pub length: u32,
}

#[derive(Clone, Copy, Debug, PartialEq, Eq)]
pub struct Texts<'t> {
    pub catalog: &'t [u8],
    pub statement: &'t [u8],
}

// The address of a position in the statement.
pub fn address(a: usize) -> u32
    requires { a ≤ 65536 }
    ensures { result ≡ most_bytes + a }
{
    MOST_BYTES + a as u32
}

// The place of a field of the statement, if a name may have as many bytes.
pub fn name_at(field: Field) -> Option<Place>
    requires { (field.start ≤ 65536) × (field.length ≤ 65536) }
    ensures { MatchOption result (is_name field.length ≡ false) (λ x. (is_name field.length ≡ true) × (x
        ≡ record { address = most_bytes + field.start; length = field.length })) }
{
    if !is_name(field.length) {
        return None;
    }
    Some(Place {
        address: address(field.start),
        length: field.length as u32,
    })
}

impl Place {
    // The place of an address and a length; none where the length is 0.
    #[tactic(auto, unfolding(crate::specs::Places::place_of))]
    pub fn of_numbers(address: u32, length: u32) -> Option<Place>
        ensures { result ≡ places.place_of address length }
    {
        if length == 0 {
            return None;
        }
        Some(Place { address, length })
    }

    // The place of a text literal.
    pub fn of_literal(literal: Literal) -> Place
        ensures { result ≡ record { address = literal.first; length = literal.second } }
    {
        Place {
            address: literal.first,
            length: literal.second,
        }
    }

    // The place whose address is the number at k, and its length the one behind that.
    pub fn at(numbers: &[u32], k: usize) -> Place
        requires { k < 2 ^ 63 }
        ensures { result ≡ record { address = get_or numbers.now k 0; length = get_or numbers.now (k + 1) 0 } }
    {
        Place {
            address: number(numbers, k),
            length: number(numbers, k + 1),
        }
    }

    // The address and the length of a place that may be missing, or zeros.
    pub fn numbers(place: Option<Place>) -> (u32, u32)
        ensures { places.option_numbers place ≡ result.0 ∷ result.1 ∷ [] }
    {
        match place {
            Some(place) => (place.address, place.length),
            None => (0, 0),
        }
    }
}

impl<'t> Texts<'t> {
    // The bytes at a place, or as many of them as there are.
    pub fn bytes_at(&self, place: Place) -> &'t [u8]
        ensures { result.now ≡ bytes_at self.now.catalog.now self.now.statement.now place.address place.length }
    {
        let n = place.length as usize;
        if place.address < MOST_BYTES {
            return part(self.catalog, place.address as usize, n);
        }
        part(self.statement, (place.address - MOST_BYTES) as usize, n)
    }

    // How many of its bytes there are.
    pub fn length_at(&self, place: Place) -> u32
        ensures { result ≡ length (bytes_at self.now.catalog.now self.now.statement.now place.address place.length) }
    {
        self.bytes_at(place).len() as u32
    }

    // The place of those that there are.
    pub fn clipped(&self, place: Place) -> Place
        ensures address { result.address ≡ place.address }
        ensures length { result.length ≡ length (bytes_at self.now.catalog.now self.now.statement.now place.address place.length) }
    {
        Place {
            address: place.address,
            length: self.length_at(place),
        }
    }

    // The same of a place that may be missing.
    pub fn clipped_option(&self, place: Option<Place>) -> Option<Place>
        ensures { result ≡ places.clipped_place self.now.catalog.now self.now.statement.now place }
    {
        let place = place?;
        Some(self.clipped(place))
    }

    // Whether they are x.
    pub fn holds_at(&self, place: Place, x: &[u8]) -> bool
        ensures { result ≡ same (bytes_at self.now.catalog.now self.now.statement.now place.address place.length) x.now }
    {
        equal(self.bytes_at(place), x)
    }

    // Whether those at two places are the same.
    pub fn same_bytes(&self, a: Place, b: Place) -> bool
        ensures { result ≡ same (bytes_at self.now.catalog.now self.now.statement.now a.address a.length)
            (bytes_at self.now.catalog.now self.now.statement.now b.address b.length) }
    {
        equal(self.bytes_at(a), self.bytes_at(b))
    }

    // The order of those at two places.
    pub fn order_texts(&self, a: Place, b: Place) -> Ordering
        ensures { result ≡ order_of (bytes_at self.now.catalog.now self.now.statement.now a.address a.length)
            (bytes_at self.now.catalog.now self.now.statement.now b.address b.length) }
    {
        compare(self.bytes_at(a), self.bytes_at(b))
    }
}
