// What of a scope is in use, lent.
ghost use Rattle.std.specs.Prelude.{◌<◌, length};
ghost use Rattle.scope.specs.Labels.{position_count};

// The columns' labels, what is matched to each, and the tables. A column's position has 32 bits.
#[derive(Clone, Copy, Debug, PartialEq, Eq)]
pub struct View<'s> {
    pub labels: &'s [u32],
    pub matches: &'s [u16],
    pub tables: &'s [u32],
    pub ghost counted: { (length labels.now < position_count) × (length matches.now < position_count) },
}
