// Why an instruction has no word.
use std::error::Error;
use std::fmt;

#[derive(Clone, Copy, Debug, PartialEq, Eq)]
pub enum EncodeError {
    BadRegister,
    BadField,
}

impl fmt::Display for EncodeError {
    fn fmt<W: fmt::Write>(&self, f: &mut fmt::Formatter<W>) -> fmt::Result {
        match self {
            EncodeError::BadRegister => write!(f, "a register is above 31"),
            EncodeError::BadField => write!(f, "a number does not fit its field"),
        }
    }
}

impl Error for EncodeError {}
