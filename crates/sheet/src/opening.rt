// The first lines of a sheet.
ghost use Rattle.std.specs.Prelude.{◌≡◌, Ok, Err, MatchResult};
ghost use Rattle.sheet_lines.specs.Lines.{lines};
ghost use Rattle.sheet_lines.specs.Faults.{fault_line};
ghost use Rattle.sheet.specs.Sheets.{fault_lines, fault_part, faults_left_out};

use sheet_lines::cursor::Cursor;
use sheet_lines::fault::SheetFault;
use sheet_lines::readers::{is_faults, read_faults, read_faulty};

// How many faults a ring stands, and the set of its faulty parties. Not a part of `Setup`, whose four
// fields programs read one by one.
#[derive(Clone, Copy, PartialEq, Eq, Debug)]
pub struct Faults {
    pub most: u64,
    pub parties: u64,
}

// The faults of a ring whose sheet leaves them out: 0, whatever the number that the definition is asked with.
fn left_out(parties: u64) -> u64
    ensures { result ≡ faults_left_out parties }
{
    let _ = parties;
    0
}

// Reads the lines `faults`, unless it is left out, and `faulty`.
pub fn take_faults(cursor: &mut Cursor, parties: u64) -> Result<Faults, SheetFault>
    requires { cursor.old.passed ≡ 2 }
    ensures same { cursor.new.sheet.now ≡ cursor.old.sheet.now }
    ensures value { MatchResult result (λ f. fault_lines (lines cursor.old.sheet.now) parties ≡ Ok (fault_part f.most f.parties cursor.new.passed)) (λ e. fault_lines (lines cursor.old.sheet.now) parties ≡ Err (fault_line cursor.new.passed e)) }
{
    let line = cursor.line()?;
    if is_faults(line) {
        let most = read_faults(line)?;
        return Ok(Faults {
            most,
            parties: cursor.take(read_faulty)?,
        });
    }
    let faulty = read_faulty(line)?;
    Ok(Faults {
        most: left_out(parties),
        parties: faulty,
    })
}
