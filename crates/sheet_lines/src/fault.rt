// What can be wrong with a line and with a sheet; a fault below is kept inside the one above.
ghost use Rattle.std.specs.Prelude.{◌≡◌};
ghost use Rattle.sheet_lines.specs.declared.fault.LineFault.TheVariants.{Field};
ghost use Rattle.sheet_lines.specs.declared.fault.SheetFault.TheVariants.{Line};

use sheet_fields::fault::FieldFault;
use thiserror::Error;

#[derive(Clone, Copy, PartialEq, Eq, Debug, Error)]
pub enum LineFault {
    // no byte 10 at its end
    #[error("the line has no end")]
    NoEnd,
    // more than 120 bytes
    #[error("the line is too long")]
    TooLong,
    // no `=`
    #[error("the line has no name")]
    NoName,
    // another name than the one that stands here
    #[error("the line has another name")]
    OtherName,
    // a fault in the part after the `=`
    #[error("{0}")]
    Field(FieldFault),
}

#[derive(Clone, Copy, PartialEq, Eq, Debug, Error)]
pub enum SheetFault {
    // the sheet ends where a line is due
    #[error("a line is missing")]
    Missing,
    // the line passes the sheet's 60,000 bytes
    #[error("the sheet is too long")]
    TooLong,
    // a fault in the line
    #[error("{0}")]
    Line(LineFault),
}

impl From<FieldFault> for LineFault {
    ghost from_gives = { λ f r. r ≡ Field f };

    fn from(f: FieldFault) -> LineFault {
        LineFault::Field(f)
    }
}

impl From<LineFault> for SheetFault {
    ghost from_gives = { λ l r. r ≡ Line l };

    fn from(l: LineFault) -> SheetFault {
        SheetFault::Line(l)
    }
}
