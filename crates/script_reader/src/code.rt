//! The codes of refusals.
ghost use Rattle.std.specs.Prelude.{◌≡◌};
ghost use Rattle.script_reader.specs.Codes.{number_of_code};

/// Why a text is no script. Of the reasons that hold of one line the first of these is told.
#[derive(Clone, Copy, Debug, PartialEq, Eq)]
pub(crate) enum Code {
    Header,
    Word,
    Number,
    Name,
    Twice,
    Unknown,
    Kind,
    Limit,
    Transaction,
    NoEnd,
    AfterEnd,
    TooLong,
    Byte,
}

impl Code {
    /// The number that is printed.
    pub(crate) fn number(self) -> u8
        ensures { result ≡ number_of_code self }
    {
        match self {
            Code::Header => 1,
            Code::Word => 2,
            Code::Number => 3,
            Code::Name => 4,
            Code::Twice => 5,
            Code::Unknown => 6,
            Code::Kind => 7,
            Code::Limit => 8,
            Code::Transaction => 9,
            Code::NoEnd => 10,
            Code::AfterEnd => 11,
            Code::TooLong => 12,
            Code::Byte => 13,
        }
    }
}
