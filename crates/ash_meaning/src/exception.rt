//! What a script can raise (AngelScript manual, "Exception handling").
ghost use Rattle.std.specs.Prelude.{◌≡◌};
ghost use Rattle.ash_meaning.specs.Exceptions.{number_of, name_of};

/// Why a script ended before it came to its end.
#[derive(Clone, Copy, Debug)]
pub enum Exception {
    /// A member was used, or an element, through null.
    NullPointerAccess,
    /// A divisor was zero.
    DivideByZero,
    /// The least number of a signed type was divided by -1.
    DivideOverflow,
    /// As many frames were there as may be.
    StackOverflow,
    /// No free box was of the kind.
    PoolEmpty,
    /// As many objects lived as may.
    ObjectLimit,
    /// A host object answered something else than was declared.
    BadHostAnswer,
    /// A host object raised this code.
    Raised(u16),
    /// Every number was given to an object.
    NumbersSpent,
    /// An index was not below the length of the array.
    IndexOutOfBounds,
    /// An array would have been longer than it may be.
    ArrayLimit,
}

impl Exception {
    /// Its number, from 1 to 11.
    pub fn number(self) -> u8
        ensures number { result ≡ number_of self }
    {
        match self {
            Exception::NullPointerAccess => 1,
            Exception::DivideByZero => 2,
            Exception::DivideOverflow => 3,
            Exception::StackOverflow => 4,
            Exception::PoolEmpty => 5,
            Exception::ObjectLimit => 6,
            Exception::BadHostAnswer => 7,
            Exception::Raised(_) => 8,
            Exception::NumbersSpent => 9,
            Exception::IndexOutOfBounds => 10,
            Exception::ArrayLimit => 11,
        }
    }

    /// Its name, without the code that a host object raised.
    pub fn name(self) -> &'static str
        ensures name { result.now ≡ name_of self }
    {
        match self {
            Exception::NullPointerAccess => "NullPointerAccess",
            Exception::DivideByZero => "DivideByZero",
            Exception::DivideOverflow => "DivideOverflow",
            Exception::StackOverflow => "StackOverflow",
            Exception::PoolEmpty => "PoolEmpty",
            Exception::ObjectLimit => "ObjectLimit",
            Exception::BadHostAnswer => "BadHostAnswer",
            Exception::Raised(_) => "Raised",
            Exception::NumbersSpent => "NumbersSpent",
            Exception::IndexOutOfBounds => "IndexOutOfBounds",
            Exception::ArrayLimit => "ArrayLimit",
        }
    }
}
