// The datatypes of columns. Their discriminants are document 01's numbers.
ghost use Rattle.std.specs.Prelude.{◌≡◌};
ghost use Rattle.rules.specs.Area.{type_code};
ghost use Rattle.numbers.specs.Datatypes.{type_of, datatype_at};

#[derive(Clone, Copy, Debug, PartialEq, Eq)]
pub enum DataType {
    Boolean = 1,
    Integer,
    Float,
    String,
}

impl From<DataType> for u32 {
    ghost from_gives = { λ datatype number. number ≡ type_code (type_of datatype) };

    fn from(datatype: DataType) -> u32 {
        datatype as u32
    }
}

impl DataType {
    // The type of a number; a string's where it is none's, which From would not say.
    #[tactic(auto, unfolding(crate::specs::Datatypes::datatype_at, crate::specs::Codes::coded))]
    pub fn of_number(n: u32) -> DataType
        ensures { result ≡ datatype_at n }
    {
        match n {
            1 => DataType::Boolean,
            2 => DataType::Integer,
            3 => DataType::Float,
            _ => DataType::String,
        }
    }
}
