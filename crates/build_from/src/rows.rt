// The rows of a join's sides, and whether it is outer or right.
ghost use Rattle.std.specs.Prelude.{◌≡◌};
ghost use Rattle.rules.specs.BuildFrom.{is_outer, is_right};
ghost use Rattle.build_from.specs.Rows.{join_at, SidesAt};

use from::roots::left;
use from::row::{Kind, kind_of};

// The rows of a join's sides in the order in which they are built.
#[derive(Clone, Copy, Debug, PartialEq, Eq)]
pub struct Sides {
    pub first: u32,
    pub second: u32,
}

// The sides of the item in row r, none of a table. A right join's right side is built first.
pub fn rows_of(froms: &[u32], r: u32) -> Option<Sides>
    ensures { SidesAt froms.now r result }
{
    let l = left(froms, r);
    match kind_of(froms, r) {
        Kind::Table => None,
        Kind::Cross | Kind::Inner | Kind::Left => Some(Sides {
            first: l,
            second: r - 1,
        }),
        Kind::Right => Some(Sides {
            first: r - 1,
            second: l,
        }),
    }
}

// Whether the join in row r is outer.
pub fn is_outer(froms: &[u32], r: u32) -> bool
    ensures { result ≡ is_outer (join_at froms.now r) }
{
    matches!(kind_of(froms, r), Kind::Left | Kind::Right)
}

// Whether it is a right one.
pub fn is_right(froms: &[u32], r: u32) -> bool
    ensures { result ≡ is_right (join_at froms.now r) }
{
    kind_of(froms, r) == Kind::Right
}
