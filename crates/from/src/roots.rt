// FROM's trees by their roots, whatever the rows hold.
ghost use Rattle.std.specs.Prelude.{◌≡◌, length, get_or};
ghost use Rattle.from.specs.Layout.{first_at, left_at, roots_before, roots_at};
ghost use Rattle.from.specs.Rows.{sides_before};

use ast::rows::at;

// The first row of the tree whose root is row r.
pub fn first(rows: &[u32], r: u32) -> u32
    ensures { result ≡ first_at rows.now r }
{
    r.saturating_sub(at(rows, r as usize, 7))
}

// The root of the left side of a join in row r; that of the right one is the row before r.
pub fn left(rows: &[u32], r: u32) -> u32
    ensures { result ≡ left_at rows.now r }
{
    first(rows, r.saturating_sub(1)).saturating_sub(1)
}

// How many items the first n rows have.
pub fn items(rows: &[u32], n: u32) -> u32
    ensures { result ≡ length (roots_before rows.now n) }
{
    // counted by hand: where the tree before ends is known only from its root
    let mut end = n;
    let mut c: u32 = 0;
    while end != 0 {
        end = first(rows, end - 1);
        c = c + 1;
    }
    c
}

// The root of item k of those that the first n rows have, from 0 on; 0 where there is none.
pub fn root(rows: &[u32], n: u32, k: u32) -> u32
    ensures { result ≡ get_or (roots_at rows.now n) k 0 }
{
    let count = items(rows, n);
    if count <= k {
        return 0;
    }
    let mut end = n;
    for _ in k + 1..count {
        end = first(rows, end - 1);
    }
    end - 1
}

// How many rows the two trees have that end before row n.
pub fn sides(rows: &[u32], n: u32) -> u32
    ensures { result ≡ sides_before rows.now n }
{
    let l = left(rows, n);
    let f = first(rows, l);
    n - f
}
