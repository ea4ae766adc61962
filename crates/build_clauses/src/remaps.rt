// The remap that drops hidden columns (planner.rs, Scope::remap_hidden). It adds no cell.
ghost use Rattle.std.specs.Prelude.{◌+◌, ◌≤◌};
ghost use Rattle.scope.specs.Targets.{target_numbers};
ghost use Rattle.plan.specs.Layout.{source_head};
ghost use Rattle.plan.specs.Pushed.{NodeRoom, Pushed};
ghost use Rattle.build_clauses.specs.Follows.{Follows};
ghost use Rattle.build_clauses.specs.Remaps.{RemapBuilt};

use plan::nodes::{Kind, Nodes};
use plan::parts::{begin, end};
use plan::steps::Step;
use scope::Scope;
use scope::hidden::hidden_target;

// A target for each column: its position where it is shown, and none where it is hidden.
fn push_targets(width: u32, hidden: u32, nodes: &mut Nodes)
    requires hidden_le_width { hidden ≤ width }
    requires room { NodeRoom width nodes.old }
    ensures { Pushed (target_numbers width hidden) nodes.old nodes.new }
{
    for i in 0..width {
        nodes.push(hidden_target(width, hidden, i));
    }
}

// The remap of a scope's columns; where none is hidden nothing is appended.
pub fn build_remap(scope: &Scope, nodes: &mut Nodes, at: Step) -> Step
    requires hidden_le_width { scope.now.hidden ≤ scope.now.width }
    requires follows { Follows (source_head + scope.now.width) at.node nodes.old }
    ensures { RemapBuilt scope.now.width scope.now.hidden at.cell at.node nodes.old nodes.new result }
{
    if scope.hidden == 0 {
        return at;
    }
    let start = nodes.used;
    begin(nodes, Kind::Remap, at.node - 1);
    push_targets(scope.width, scope.hidden, nodes);
    end(nodes, start);
    at.next(at.cell)
}
