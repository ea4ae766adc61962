// Why a statement is refused, and where.
ghost use Rattle.std.specs.Prelude.{◌≡◌};
ghost use Rattle.rules.specs.Refusals.{refusal_number};
ghost use Rattle.rules.specs.Entry.{text_number};
ghost use Rattle.numbers.specs.Reasons.{reason_of};
ghost use Rattle.numbers.specs.Texts.{text_of};

// Document 01's refusals, in the order of their numbers.
#[derive(Clone, Copy, Debug, PartialEq, Eq)]
pub enum Reason {
    ShortArea = 1,
    WrongRecord,
    LimitPassed,
    OtherStatement,
    UnknownTable,
    DuplicateTable,
    UnknownQualifier,
    UnknownColumn,
    AmbiguousColumn,
    ConstantOnly,
    NotAggregated,
    UnsupportedStar,
    UnknownFunction,
    ArgumentCount,
    NestedAggregate,
    StarWithoutFrom,
    HavingWithoutAggregate,
    InvalidOffset,
    InvalidLimit,
    NoPrimaryKey,
    MultiplePrimaryKeys,
    UnknownInsertColumn,
    RepeatedInsertColumn,
    NoDefault,
    IntegerOverflow,
    DivisionByZero,
    WrongOperand,
    NotWorkedOut,
    InvalidIs,
}

// Document 01's number.
impl From<Reason> for u32 {
    ghost from_gives = { λ reason number. number ≡ refusal_number (reason_of reason) };

    fn from(reason: Reason) -> u32 {
        reason as u32
    }
}

impl Reason {
    // The refusal for this reason at a line.
    pub fn at(self, line: u32) -> Refusal
        ensures { result ≡ record { reason = self; line = line } }
    {
        Refusal { reason: self, line }
    }
}

// A refusal of the statement: why, and the line of the record where it arose.
#[derive(Clone, Copy, Debug, PartialEq, Eq)]
pub struct Refusal {
    pub reason: Reason,
    pub line: u32,
}

// The two texts, by document 01's numbers.
#[derive(Clone, Copy, Debug, PartialEq, Eq)]
pub enum Text {
    Catalog = 1,
    Statement = 2,
}

// Document 01's number.
impl From<Text> for u32 {
    ghost from_gives = { λ text number. number ≡ text_number (text_of text) };

    fn from(text: Text) -> u32 {
        text as u32
    }
}

impl Text {
    // A refusal of this text.
    pub fn refuses(self, refusal: Refusal) -> TextRefusal
        ensures { result ≡ record { reason = refusal.reason; text = self; line = refusal.line } }
    {
        TextRefusal {
            reason: refusal.reason,
            text: self,
            line: refusal.line,
        }
    }
}

// Why a text is refused, which of the two, and the line of the record where it arose.
#[derive(Clone, Copy, Debug, PartialEq, Eq)]
pub struct TextRefusal {
    pub reason: Reason,
    pub text: Text,
    pub line: u32,
}
