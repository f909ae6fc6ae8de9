// Lines taken by a reader of one line.
ghost use Rattle.std.specs.Prelude.{◌≡◌, ◌+◌, OnOk};
ghost use Rattle.sheet_lines.specs.Lines.{lines, line_after};
ghost use Rattle.sheet_lines.specs.Takes.{Taken};

use crate::cursor::{Cursor, Line};
use crate::fault::{LineFault, SheetFault};

impl<'a> Cursor<'a> {
    // Passes the next line, and answers what the reader understands of it.
    pub fn take<T, F: FnOnce(Line) -> Result<T, LineFault>>(
        &mut self,
        read: F,
    ) -> Result<T, SheetFault>
        requires { F.IsAlwaysCallable read }
        ensures same { self.new.sheet.now ≡ self.old.sheet.now }
        ensures passed { OnOk result (self.new.passed ≡ self.old.passed + 1) }
        ensures value { Taken (F.post read) (line_after (lines self.old.sheet.now) self.old.passed) (self.old.passed + 1) self.new.passed result }
    {
        let line = self.line()?;
        Ok(read(line)?)
    }
}
