// Node records whose length is not known before all of their parts are pushed: begun with a length of 0, ended by
// storing it. Rows of values, groups and remap targets are pushed as they are.
#![tactic(auto, using(numbers::specs::Flags::byte_flag), unfolding(rules::specs::Area::function_numbers, rules::specs::Area::item_numbers, rules::specs::Area::key_numbers))]

ghost use Rattle.std.specs.Prelude.{◌≡◌, [], ◌∷◌, ◌+◌, ◌-◌};
ghost use Rattle.std.proofs.Math.Option.{Option};
ghost use Rattle.rules.specs.Lines.{Word};
ghost use Rattle.rules.specs.Nodes.{values, aggregate};
ghost use Rattle.rules.specs.Area.{option_span, function_numbers, item_numbers, key_numbers};
ghost use Rattle.numbers.specs.Aggregates.{aggregate_of};
ghost use Rattle.plan.specs.Layout.{record_head, source_head, aggregate_head, length_place, groups_place, function_size, item_size, key_size};
ghost use Rattle.plan.specs.Pushed.{NodeRoom, Pushed, Stored, Countable};
ghost use Rattle.plan.specs.Kinds.{node_number};
ghost use Rattle.text.specs.Places.{option_numbers};
ghost use Rattle.plan.specs.Records.{opened, over_numbers};

use crate::nodes::{Kind, Nodes, head};
use numbers::aggregates::Aggregate;
use text::places::Place;

// Where in a record its length stands, and in an aggregate's the number of its groups.
const LENGTH: usize = 1;

const GROUPS: usize = 3;

// How many numbers a key of an order has.
pub const KEY_SIZE: usize = 2;

// BEGINNINGS
pub fn begin_values(nodes: &mut Nodes)
    requires { NodeRoom record_head nodes.old }
    ensures { Pushed (opened (values [])) nodes.old nodes.new }
{
    head(nodes, Kind::Values, 0);
}

pub fn begin_aggregate(nodes: &mut Nodes, source: u32)
    requires { NodeRoom aggregate_head nodes.old }
    ensures { Pushed (opened (aggregate source [] [])) nodes.old nodes.new }
{
    head(nodes, Kind::Aggregate, 0);
    nodes.extend([source, 0]);
}

// A projection, an order or a remap of a source, by the kind.
pub fn begin(nodes: &mut Nodes, kind: Kind, source: u32)
    requires { NodeRoom source_head nodes.old }
    ensures { Pushed (over_numbers (node_number kind) source) nodes.old nodes.new }
{
    head(nodes, kind, 0);
    nodes.push(source);
}

// PARTS
// An aggregate function of an argument.
pub fn function(nodes: &mut Nodes, aggregate: Aggregate, root: u32)
    requires { NodeRoom function_size nodes.old }
    ensures { Pushed (function_numbers ((aggregate_of aggregate, root) ∷ [])) nodes.old nodes.new }
{
    nodes.extend([u32::from(aggregate), root]);
}

// An item of a projection and its alias.
pub fn item(nodes: &mut Nodes, root: u32, alias: Option<Place>)
    requires { NodeRoom item_size nodes.old }
    ensures { (w : Option Word) → option_span w ≡ option_numbers alias → Pushed (item_numbers
        ((root, w) ∷ [])) nodes.old nodes.new }
{
    nodes.push(root);
    nodes.place(alias);
}

// A key of an order.
pub fn key(nodes: &mut Nodes, root: u32, descending: bool)
    requires { NodeRoom key_size nodes.old }
    ensures { Pushed (key_numbers ((root, descending) ∷ [])) nodes.old nodes.new }
{
    nodes.extend([root, u32::from(descending)]);
}

// ENDS
// Stored at place i, how many of the numbers in use stand behind it.
fn count(nodes: &mut Nodes, i: usize)
    requires { Countable i nodes.old }
    ensures { Stored i (nodes.old.used - (i + 1)) nodes.old nodes.new }
{
    nodes.numbers[i] = (nodes.used - (i + 1)) as u32;
}

// The length of the record that starts at a place.
pub fn end(nodes: &mut Nodes, start: usize)
    requires { Countable (start + length_place) nodes.old }
    ensures { Stored (start + length_place) (nodes.old.used - (start + record_head)) nodes.old nodes.new }
{
    count(nodes, start + LENGTH);
}

// The number of groups of the aggregate that starts at a place.
pub fn end_groups(nodes: &mut Nodes, start: usize)
    requires { Countable (start + groups_place) nodes.old }
    ensures { Stored (start + groups_place) (nodes.old.used - (start + aggregate_head)) nodes.old nodes.new }
{
    count(nodes, start + GROUPS);
}
