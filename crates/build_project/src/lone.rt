// A star that stands alone and needs no projection.
ghost use Rattle.std.specs.Prelude.{◌≡◌, map};
ghost use Rattle.rules.specs.Lists.{Bytes};
ghost use Rattle.rules.specs.Items.{is_lone};
ghost use Rattle.build_projection.specs.Items.{item_of};

use build_projection::items::{Item, plain_item};

// Whether there is one item, a star with no alias.
pub fn is_lone(cells: &[u32], parts: &[u32], items: &[Item]) -> bool
    ensures { (c q : Bytes) → result ≡ is_lone (map (item_of c q cells.now parts.now) items.now) }
{
    match items {
        [x] => plain_item(cells, parts, *x).is_some(),
        _ => false,
    }
}
