// The operators of expressions. Their discriminants are document 01's codes: the kinds of their cells (docs/PLAN.md).
ghost use Rattle.std.specs.Prelude.{◌≡◌, MatchResult};
ghost use Rattle.rules.specs.Codes.{unary_code, binary_code};
ghost use Rattle.numbers.specs.Codes.{Apart};
ghost use Rattle.numbers.specs.Operators.{unary_operator, binary_operator};

use crate::UnknownNumber;

#[derive(Clone, Copy, Debug, PartialEq, Eq)]
pub enum Unary {
    Not = 8,
    Factorial,
    Identity,
    Negate,
    SquareRoot,
}

// A statement's binary operators; the last three are in no plan.
#[derive(Clone, Copy, Debug, PartialEq, Eq)]
pub enum Binary {
    And = 16,
    Or,
    Equal,
    GreaterThan,
    LessThan,
    Add,
    Divide,
    Exponentiate,
    Multiply,
    Remainder,
    Subtract,
    Like,
    GreaterThanOrEqual,
    LessThanOrEqual,
    NotEqual,
}

impl From<Unary> for u32 {
    ghost from_gives = { λ operator code. code ≡ unary_code (unary_operator operator) };

    fn from(operator: Unary) -> u32 {
        operator as u32
    }
}

#[tactic(auto, unfolding(crate::specs::Operators::unary_operator, rules::specs::Codes::unary_code))]
impl TryFrom<u32> for Unary {
    type Error = UnknownNumber;

    ghost try_from_gives = { λ code r. MatchResult r (λ operator. unary_code (unary_operator operator) ≡ code) (λ _. Apart code 8 5) };

    fn try_from(code: u32) -> Result<Unary, UnknownNumber> {
        match code {
            8 => Ok(Unary::Not),
            9 => Ok(Unary::Factorial),
            10 => Ok(Unary::Identity),
            11 => Ok(Unary::Negate),
            12 => Ok(Unary::SquareRoot),
            _ => Err(UnknownNumber),
        }
    }
}

impl From<Binary> for u32 {
    ghost from_gives = { λ operator code. code ≡ binary_code (binary_operator operator) };

    fn from(operator: Binary) -> u32 {
        operator as u32
    }
}

#[tactic(auto, unfolding(crate::specs::Operators::binary_operator, rules::specs::Codes::binary_code, rules::specs::Codes::plain_code))]
impl TryFrom<u32> for Binary {
    type Error = UnknownNumber;

    ghost try_from_gives = { λ code r. MatchResult r (λ operator. binary_code (binary_operator operator) ≡ code) (λ _. Apart code 16 15) };

    fn try_from(code: u32) -> Result<Binary, UnknownNumber> {
        match code {
            16 => Ok(Binary::And),
            17 => Ok(Binary::Or),
            18 => Ok(Binary::Equal),
            19 => Ok(Binary::GreaterThan),
            20 => Ok(Binary::LessThan),
            21 => Ok(Binary::Add),
            22 => Ok(Binary::Divide),
            23 => Ok(Binary::Exponentiate),
            24 => Ok(Binary::Multiply),
            25 => Ok(Binary::Remainder),
            26 => Ok(Binary::Subtract),
            27 => Ok(Binary::Like),
            28 => Ok(Binary::GreaterThanOrEqual),
            29 => Ok(Binary::LessThanOrEqual),
            30 => Ok(Binary::NotEqual),
            _ => Err(UnknownNumber),
        }
    }
}
