// What can be wrong with a field of a run sheet.
use thiserror::Error;

#[derive(Clone, Copy, PartialEq, Eq, Debug, Error)]
pub enum FieldFault {
    // a number without a digit
    #[error("a number has no digit")]
    Empty,
    // a byte that is no digit
    #[error("a byte is no digit")]
    NoDigit,
    // a first digit 0 with more digits after it
    #[error("a number begins with 0")]
    LeadingZero,
    // a number from 2^64 on, or above what the field takes
    #[error("a number is too large")]
    TooLarge,
    // a number below what the field takes, or parties that do not rise
    #[error("a number is too small")]
    TooSmall,
    // a text that the field does not know
    #[error("a text is not known")]
    UnknownText,
    // a list of another length than the field has
    #[error("a list has another length")]
    WrongCount,
}
