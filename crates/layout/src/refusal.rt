// What a source, a base or the lent buffers are refused for: a refusal has a number, and stands at a line.
ghost use Rattle.std.specs.Prelude.{◌≡◌};
ghost use Rattle.layout.specs.declared.refusal.Refusal.TheVariants.{Encoding};
ghost use Rattle.layout.specs.Code.Numbers.{refusal_number};

use encoder::error::EncodeError;

#[derive(Clone, Copy, Debug, PartialEq, Eq)]
pub enum Refusal {
    // because of the text
    HighByte,
    MissingSectionName,
    UnknownSection,
    MissingSymbol,
    MalformedEquate,
    InvalidNumber,
    NumberOutOfRange,
    InvalidWord,
    InvalidString,
    UnknownDataDirective,
    UnknownBssDirective,
    StoresInBss,
    UndefinedLabelWord,
    EquateIsLabel,
    DuplicateEquate,
    MalformedExpression,
    UnresolvedEquate,
    WrongOperands,
    UnknownConstant,
    UnknownLabel,
    Unsupported,
    Encoding(EncodeError),
    ExpressionOverflow,
    // because of a limit
    BaseTooHigh,
    TextTooLong,
    DataFull,
    BssFull,
    WordsFull,
    LabelsFull,
    EquatesFull,
    LabelWordsFull,
    ItemsFull,
}

impl Refusal {
    pub fn number(self) -> u8
        ensures { result ≡ refusal_number self }
    {
        match self {
            Refusal::HighByte => 1,
            Refusal::MissingSectionName => 2,
            Refusal::UnknownSection => 3,
            Refusal::MissingSymbol => 4,
            Refusal::MalformedEquate => 5,
            Refusal::InvalidNumber => 6,
            Refusal::NumberOutOfRange => 7,
            Refusal::InvalidWord => 8,
            Refusal::InvalidString => 9,
            Refusal::UnknownDataDirective => 10,
            Refusal::UnknownBssDirective => 11,
            Refusal::StoresInBss => 12,
            Refusal::UndefinedLabelWord => 13,
            Refusal::EquateIsLabel => 14,
            Refusal::DuplicateEquate => 15,
            Refusal::MalformedExpression => 16,
            Refusal::UnresolvedEquate => 17,
            Refusal::WrongOperands => 18,
            Refusal::UnknownConstant => 19,
            Refusal::UnknownLabel => 20,
            Refusal::Unsupported => 21,
            Refusal::Encoding(EncodeError::BadRegister) => 22,
            Refusal::Encoding(EncodeError::BadField) => 23,
            Refusal::ExpressionOverflow => 24,
            Refusal::BaseTooHigh => 40,
            Refusal::TextTooLong => 41,
            Refusal::DataFull => 42,
            Refusal::BssFull => 43,
            Refusal::WordsFull => 44,
            Refusal::LabelsFull => 45,
            Refusal::EquatesFull => 46,
            Refusal::LabelWordsFull => 47,
            Refusal::ItemsFull => 48,
        }
    }

    pub fn at(self, line: u32) -> RefusedAt
        ensures { result ≡ record { refusal = self; line = line } }
    {
        RefusedAt {
            refusal: self,
            line,
        }
    }
}

impl From<EncodeError> for Refusal {
    ghost from_gives = { λ e r. r ≡ Encoding e };

    fn from(e: EncodeError) -> Refusal {
        Refusal::Encoding(e)
    }
}

// A refusal and its line, counted from 0.
#[derive(Clone, Copy, Debug, PartialEq, Eq)]
pub struct RefusedAt {
    pub refusal: Refusal,
    pub line: u32,
}
