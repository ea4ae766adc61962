// The remap of a right join: its columns swapped back.
ghost use Rattle.std.specs.Prelude.{◌+◌, ◌≤◌, ◌<◌, map, length};
ghost use Rattle.rules.specs.Nodes.{remap};
ghost use Rattle.rules.specs.Area.{option_number, record_numbers};
ghost use Rattle.rules.specs.BuildFrom.{rising, swapped};
ghost use Rattle.plan.specs.Layout.{source_head, nodes_size};
ghost use Rattle.plan.specs.Pushed.{NodeRoom, Pushed};

use plan::nodes::{Kind, Nodes};
use plan::parts;

// The targets from i on, n of them.
fn push_rising(nodes: &mut Nodes, i: u32, n: u32)
    requires room { NodeRoom n nodes.old }
    requires few { i + n < 4294967295 }
    ensures { Pushed (map option_number (rising i n)) nodes.old nodes.new }
{
    for target in i..i + n {
        nodes.push(target + 1);
    }
}

// The remap of a source whose first a columns come behind the b that follow them.
pub fn push_remap(nodes: &mut Nodes, source: u32, a: u32, b: u32)
    requires room { nodes.old.used + source_head + (a + b) ≤ length nodes.old.numbers.now }
    requires most { length nodes.old.numbers.now ≤ nodes_size }
    ensures { Pushed (record_numbers (remap source (swapped a b))) nodes.old nodes.new }
{
    let start = nodes.used;
    parts::begin(nodes, Kind::Remap, source);
    push_rising(nodes, b, a);
    push_rising(nodes, 0, b);
    parts::end(nodes, start);
}
