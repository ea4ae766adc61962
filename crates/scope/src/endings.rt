// Labels passed over by the last byte of their names.
ghost use Rattle.std.specs.Prelude.{◌≡◌, ◌≤◌, min, length};
ghost use Rattle.rules.specs.Limits.{most_bytes};
ghost use Rattle.scope.specs.Endings.{ending_of, may_end};

use super::labels::place;
use text::MOST_BYTES;

// The last byte of a name that is sought. Only labels whose names end at `limit` or before, in the catalog, are held to it.
#[derive(Clone, Copy, Debug, PartialEq, Eq)]
pub struct Ending {
    pub limit: u32,
    pub last: u8,
}

// Where the catalog's addresses end.
fn catalog_end(catalog: &[u8]) -> u32
    ensures { result ≡ min (length catalog.now) most_bytes }
{
    catalog.len().min(MOST_BYTES as usize) as u32
}

// The ending of a name; by that of an empty one no label is passed over.
pub fn ending_of(catalog: &[u8], name: &[u8]) -> Ending
    ensures { result ≡ ending_of catalog.now name.now }
{
    match name.last() {
        None => Ending { limit: 0, last: 0 },
        Some(last) => Ending {
            limit: catalog_end(catalog),
            last: *last,
        },
    }
}

// Whether a label may have a name of an ending.
pub fn may_end(catalog: &[u8], ending: Ending, x: u32) -> bool
    requires { ending.limit ≤ length catalog.now }
    ensures { result ≡ may_end catalog.now ending x }
{
    let name = place(x);
    let end = name.address + name.length;
    if ending.limit < end || end == 0 {
        return true;
    }
    catalog[end as usize - 1] == ending.last
}
