// Why a sheet is not read, and why its calls are not handed out.
ghost use Rattle.std.specs.Prelude.{◌≡◌};
ghost use Rattle.sheet.specs.declared.fault.NoCalls.TheVariants as none;

use sheet_lines::fault::SheetFault;
use std::alloc::{AllocError, AllocFailed};
use std::{error, fmt};
use thiserror::Error;

// An unreadable sheet: the number of its first line at fault, from 1, and what is wrong there.
#[derive(Clone, Copy, PartialEq, Eq, Debug, Error)]
#[error("line {line}: {fault}")]
pub struct Unreadable {
    pub line: usize,
    pub fault: SheetFault,
}

// No calls: the sheet is unreadable, by this fault, or there is no memory for them.
#[derive(Clone, Copy, PartialEq, Eq, Debug)]
pub enum NoCalls<F> {
    Unreadable(F),
    Memory,
}

impl<F: fmt::Display> fmt::Display for NoCalls<F> {
    fn fmt<W: fmt::Write>(&self, f: &mut fmt::Formatter<W>) -> fmt::Result {
        match self {
            NoCalls::Unreadable(fault) => write!(f, "{fault}"),
            NoCalls::Memory => f.write_str("there is no memory for the calls"),
        }
    }
}

impl<F: fmt::Debug + fmt::Display + Drop> error::Error for NoCalls<F> {}

impl From<SheetFault> for NoCalls<SheetFault> {
    ghost from_gives = { λ f r. r ≡ none.Unreadable f };

    fn from(f: SheetFault) -> NoCalls<SheetFault> {
        NoCalls::Unreadable(f)
    }
}

impl<F> From<AllocError> for NoCalls<F> {
    ghost from_gives = { λ _ r. r ≡ none.Memory };

    fn from(_e: AllocError) -> NoCalls<F> {
        NoCalls::Memory
    }
}

impl<T: Drop, F> From<AllocFailed<T>> for NoCalls<F> {
    ghost from_gives = { λ _ r. r ≡ none.Memory };

    fn from(_e: AllocFailed<T>) -> NoCalls<F> {
        NoCalls::Memory
    }
}
