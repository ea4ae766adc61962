// 64 bits as two numbers of 32, the low half first.
ghost use Rattle.std.specs.Prelude.{◌≡◌, ◌/◌, ◌%◌, ◌^◌};
ghost use Rattle.numbers.specs.Bits as bits;

// The 64 bits of two halves.
#[tactic(auto, unfolding(crate::specs::Bits::joined))]
pub fn joined(low: u32, high: u32) -> u64
    ensures { result ≡ bits.joined low high }
{
    low as u64 + high as u64 * 4294967296
}

pub fn low(n: u64) -> u32
    ensures { result ≡ n % 2 ^ 32 }
{
    (n % 4294967296) as u32
}

pub fn high(n: u64) -> u32
    ensures { result ≡ n / 2 ^ 32 }
{
    (n / 4294967296) as u32
}
