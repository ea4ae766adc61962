// The remap that drops hidden columns (planner.rs, Scope::remap_hidden).
ghost use Rattle.std.specs.Prelude.{◌≡◌, ◌≤◌, get_or};
ghost use Rattle.scope.specs.Targets.{target_numbers};

use numbers::options::number_of;

// Column i's target in it, as a number of the plan: 1 more than its position where it is shown, 0 where it is hidden.
pub fn hidden_target(width: u32, hidden: u32, i: u32) -> u32
    requires { hidden ≤ width }
    ensures { result ≡ get_or (target_numbers width hidden) i 0 }
{
    let target = (i < width - hidden).then_some(i);
    number_of(target)
}
