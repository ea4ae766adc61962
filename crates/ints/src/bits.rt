// The 64 bits of an integer, in two's complement.
ghost use Rattle.std.specs.Prelude.{◌≡◌};
ghost use Rattle.rules.specs.Area.{bits};

pub fn to_bits(x: i64) -> u64
    ensures { result ≡ bits x }
{
    x.cast_unsigned()
}

// The one integer of 64 bits whose bits are n.
pub fn from_bits(n: u64) -> i64
    ensures { bits result ≡ n }
{
    n.cast_signed()
}
