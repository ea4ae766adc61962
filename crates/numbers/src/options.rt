// Numbers that may be missing.
ghost use Rattle.std.specs.Prelude.{◌≡◌, ◌<◌, ◌^◌};
ghost use Rattle.rules.specs.Area.{option_number};
ghost use Rattle.numbers.specs.Options.{option_of};

// One more than a number, or 0 for none.
#[tactic(auto, unfolding(rules::specs::Area::option_number))]
pub fn number_of(x: Option<u32>) -> u32
    requires { option_number (option_of x) < 2 ^ 32 }
    ensures { result ≡ option_number (option_of x) }
{
    match x {
        Some(x) => x + 1,
        None => 0,
    }
}

// The number that stands as one more than it is; none where 0 stands for it.
#[tactic(auto, unfolding(rules::specs::Area::option_number))]
pub fn of_number(x: u32) -> Option<u32>
    ensures { option_number (option_of result) ≡ x }
{
    x.checked_sub(1)
}
