// The own numbers of INSERT: its table's name and its column map.
ghost use Rattle.std.specs.Prelude.{◌≡◌, ℕ, ◌*◌, ◌<◌, ◌^◌, length, option_copied};
ghost use Rattle.rules.specs.Schema.{Table};
ghost use Rattle.rules.specs.Plan.{Node};
ghost use Rattle.rules.specs.Plan as plan;
ghost use Rattle.rules.specs.Area.{span, own_numbers};
ghost use Rattle.plan.specs.Layout.{mapping_size};
ghost use Rattle.plan.specs.Pushed.{NodeRoom, Pushed};
ghost use Rattle.plan.specs.Places.{place_numbers};
ghost use Rattle.build_insert.specs.Map.{mappings, given_map};
ghost use Rattle.build_insert.specs.Own.{map_numbers_of, MapFits};

use plan::nodes::Nodes;
use plan::own::{insert, mapping};
use text::places::Place;

// The column and the position of each value.
fn put_mappings(columns: &[u32], nodes: &mut Nodes)
    requires few { length columns.now < 2 ^ 32 }
    requires room { NodeRoom (mapping_size * length columns.now) nodes.old }
    ensures { Pushed (map_numbers_of (mappings columns.now 0 (length columns.now))) nodes.old nodes.new }
{
    for (v, &column) in columns.iter().enumerate() {
        mapping(nodes, column, v as u32);
    }
}

// The own numbers of a table by its name.
pub fn put_own(columns: Option<&[u32]>, nodes: &mut Nodes, name: Place)
    requires { MapFits (given_map (option_copied columns)) nodes.old }
    ensures { (t : Table) (p : Node ℕ) → span t.name ≡ place_numbers name
        → Pushed (own_numbers (plan.insert t (given_map (option_copied columns.entry)) p)) nodes.old nodes.new }
{
    match columns {
        None => insert(nodes, name, None),
        Some(columns) => {
            insert(nodes, name, Some(columns.len() as u32));
            put_mappings(columns, nodes);
        }
    }
}
