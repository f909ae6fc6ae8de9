// A cursor over a sheet's bytes, which goes from line to line.
ghost use Rattle.std.specs.Prelude.{◌≡◌, ◌+◌, ◌≤◌, [], length, drop, MatchResult, nat_le};
ghost use Rattle.sheet_fields.specs.Cuts.{pieces};
ghost use Rattle.sheet_lines.specs.Lines.{lines_from, lines, line_after};
ghost use Rattle.sheet_lines.specs.Faults.{fault_line};

use crate::fault::{LineFault, SheetFault};
use sheet_fields::cuts::cut;

// The most bytes of a sheet, newlines counted.
const MOST_BYTES: usize = 60_000;

// The most bytes of a line, its newline not counted.
const MOST_IN_LINE: usize = 120;

// A line of a sheet: its number, from 1, and its bytes without the newline.
#[derive(Clone, Copy)]
pub struct Line<'a> {
    pub number: usize,
    pub text: &'a [u8],
}

// Stands before a line, or at the sheet's end.
#[derive(Drop)]
pub struct Cursor<'a> {
    sheet: &'a [u8],
    at: usize,
    passed: usize,
    ghost within: { at ≤ length sheet.now },
    ghost counted: { passed ≤ at },
    ghost along: { lines_from at (pieces 10 (drop at sheet.now)) ≡ drop passed (lines sheet.now) },
}

impl<'a> Cursor<'a> {
    // Stands before the first line.
    pub fn new(sheet: &'a [u8]) -> Cursor<'a>
        ensures { (result.passed ≡ 0) × (result.sheet.now ≡ sheet.now) }
    {
        Cursor {
            sheet,
            at: 0,
            passed: 0,
        }
    }

    // How many lines were passed.
    pub fn passed_lines(&self) -> usize
        ensures { result ≡ self.now.passed }
    {
        self.passed
    }

    // Whether no line is left.
    pub fn at_end(&self) -> bool
        ensures { result ≡ nat_le (length (lines self.now.sheet.now)) self.now.passed }
    {
        self.sheet.len() <= self.at
    }

    // Passes the next line and answers it.
    pub fn line(&mut self) -> Result<Line<'a>, SheetFault>
        ensures same { self.new.sheet.now ≡ self.old.sheet.now }
        ensures cases { MatchResult result (λ l. (l.text.now ≡ line_after (lines self.old.sheet.now) self.old.passed) × (self.new.passed ≡ self.old.passed + 1) × (l.number ≡ self.old.passed + 1)) (λ e. (line_after (lines self.old.sheet.now) self.old.passed ≡ []) × (fault_line self.new.passed e ≡ self.old.passed + 1)) }
    {
        if self.at >= self.sheet.len() {
            return Err(SheetFault::Missing);
        }
        self.passed += 1;
        let Some(halves) = cut(&self.sheet[self.at..], b'\n') else {
            self.at = self.sheet.len();
            return Err(LineFault::NoEnd.into());
        };
        let text = halves.front;
        self.at += text.len() + 1;
        if self.at > MOST_BYTES {
            return Err(SheetFault::TooLong);
        }
        if text.len() > MOST_IN_LINE {
            return Err(LineFault::TooLong.into());
        }
        Ok(Line {
            number: self.passed,
            text,
        })
    }
}
