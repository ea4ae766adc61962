// A label as one number (specs/Labels.antt): its table's slot, its name's address and length.
// As a struct it would take three times the bytes, in every copy of a scope.
ghost use Rattle.std.specs.Prelude.{◌≡◌, ◌+◌, ◌≤◌, ◌<◌};
ghost use Rattle.rules.specs.Limits.{most_from_tables};
ghost use Rattle.rules.specs.Equality.{same_name};
ghost use Rattle.rules.specs.Lines.{Word};
ghost use Rattle.scope.specs.Labels.{packed, slot_count, slot_of, address_of, length_of, name_at};
ghost use Rattle.scope.specs.Slots.{shifted};

use text::places::{Place, Texts};

// What one slot counts, and one address; how many addresses there are.
const SLOT: u32 = 16777216;

const ADDRESS: u32 = 128;

const ADDRESSES: u32 = 131072;

// The label of a name in a slot.
pub fn label(slot: u32, name: Place) -> u32
    requires { slot ≤ most_from_tables }
    ensures { result ≡ packed slot name.address name.length }
{
    slot * SLOT + name.address.min(ADDRESSES - 1) * ADDRESS + name.length.min(ADDRESS - 1)
}

// The slot of its table, 0 for none.
pub fn slot(x: u32) -> u32
    ensures { result ≡ slot_of x }
{
    x / SLOT
}

// The place of the name.
pub fn place(x: u32) -> Place
    ensures address { result.address ≡ address_of x }
    ensures length { result.length ≡ length_of x }
{
    Place {
        address: x / ADDRESS % ADDRESSES,
        length: x % ADDRESS,
    }
}

// A label behind t tables more.
pub fn behind(x: u32, t: u32) -> u32
    requires { slot_of x + t < slot_count }
    ensures { result ≡ shifted t x }
{
    if x < SLOT {
        return x;
    }
    x + t * SLOT
}

// Whether the name of a label or a table has these bytes.
pub fn has_name(texts: &Texts, x: u32, name: &[u8]) -> bool
    ensures { (w : Word) → w.bytes ≡ name.now
        → result ≡ same_name (name_at texts.now.catalog.now texts.now.statement.now x) w }
{
    texts.holds_at(place(x), name)
}
