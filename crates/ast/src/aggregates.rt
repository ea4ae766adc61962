// The aggregate functions by name (planner.rs, is_aggregate_function).
ghost use Rattle.std.specs.Prelude.{◌≡◌};
ghost use Rattle.rules.specs.Lists.{named};
ghost use Rattle.rules.specs.Places.{bytes_at};
ghost use Rattle.rules.specs.BuildAggregate.{aggregates};
ghost use Rattle.ast.specs.Aggregates.{named_of};

use numbers::aggregates::Aggregate;
use text::places::{Place, Texts};
use text::words;

// Which aggregate the name at a place is, if any.
pub fn aggregate_named(texts: &Texts, name: Place) -> Option<Aggregate>
    ensures { named_of result ≡ named aggregates (bytes_at texts.now.catalog.now texts.now.statement.now name.address
        name.length) }
{
    let table: [(&[u8], Aggregate); 5] = [
        (b"avg", Aggregate::Avg),
        (b"count", Aggregate::Count),
        (b"max", Aggregate::Max),
        (b"min", Aggregate::Min),
        (b"sum", Aggregate::Sum),
    ];
    words::beside(&table, texts.bytes_at(name))
}
