// The rows of a projection's items.
ghost use Rattle.std.specs.Prelude.{◌≡◌, map, ◌≤◌, length, take};
ghost use Rattle.rules.specs.Limits.{most_columns};
ghost use Rattle.build_projection.specs.Aliases.{row_of};

use build_projection::items::Item;
use build_projection::projection::item_row;

// The rows of all items.
pub fn item_rows(parts: &[u32], items: &[Item], rows: &mut [usize])
    requires { (length items.now ≤ most_columns) × (length rows.old ≡ most_columns) }
    ensures { take (length items.now) rows.new ≡ map (row_of parts.now) items.now }
{
    for (i, &x) in items.iter().enumerate() {
        rows[i] = item_row(parts, x);
    }
}
