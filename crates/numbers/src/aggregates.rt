// The aggregate functions. Their discriminants are their numbers in the plan (docs/PLAN.md).
ghost use Rattle.std.specs.Prelude.{◌≡◌};
ghost use Rattle.rules.specs.Area.{aggregate_code};
ghost use Rattle.numbers.specs.Aggregates.{aggregate_of};

#[derive(Clone, Copy, Debug, PartialEq, Eq)]
pub enum Aggregate {
    Avg = 1,
    Count,
    Max,
    Min,
    Sum,
}

impl From<Aggregate> for u32 {
    ghost from_gives = { λ aggregate code. code ≡ aggregate_code (aggregate_of aggregate) };

    fn from(aggregate: Aggregate) -> u32 {
        aggregate as u32
    }
}
