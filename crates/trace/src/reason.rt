//! Why a line is refused.
use std::error::Error;
use std::fmt;

/// Why a line is no command.
#[derive(Clone, Copy, Debug)]
pub enum Reason {
    TooFewWords,
    TooManyWords,
    NotANumber,
    TooWide,
    UnknownWord,
    NotHere,
    UnsupportedWrappers,
}

impl fmt::Display for Reason {
    fn fmt<W: fmt::Write>(&self, f: &mut fmt::Formatter<W>) -> fmt::Result {
        match self {
            Reason::TooFewWords => write!(f, "too few words"),
            Reason::TooManyWords => write!(f, "too many words"),
            Reason::NotANumber => write!(f, "not a number"),
            Reason::TooWide => write!(f, "number too wide"),
            Reason::UnknownWord => write!(f, "unknown word"),
            Reason::NotHere => write!(f, "no command at this place"),
            Reason::UnsupportedWrappers => {
                write!(f, "a list of wrappers that is not supported yet")
            }
        }
    }
}

impl Error for Reason {}
