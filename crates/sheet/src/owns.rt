// The own values of the parties.
ghost use Rattle.std.specs.Prelude.{◌≡◌, ◌+◌, ◌-◌, ◌≤◌, map, take, drop, replicate, IfOk, OnOk};
ghost use Rattle.sheet_fields.specs.Cuts.{understood_as};
ghost use Rattle.sheet_lines.specs.Lines.{lines};
ghost use Rattle.sheet_lines.specs.Faults.{outcome_as};
ghost use Rattle.sheet_lines.specs.Readings.{own_line, own_text};
ghost use Rattle.sheet.specs.Sheets.{own_values};

use sheet_fields::fault::FieldFault;
use sheet_fields::texts::is_text;
use sheet_fields::value_text::SheetValue;
use sheet_lines::cursor::{Cursor, Line};
use sheet_lines::fault::{LineFault, SheetFault};
use values::parties::has_party;

// `-` of a faulty party, else a value of the kind.
fn read_own_text<V: SheetValue>(text: &[u8], faulty: u64, party: u64) -> Result<V, FieldFault>
    ensures { understood_as V.Value.bytes result ≡ own_text V.SheetValue.reads (replicate V.Value.width 0) faulty party text.now }
{
    if has_party(faulty, party) {
        if is_text(text, b"-") {
            return Ok(V::blank());
        }
        return Err(FieldFault::UnknownText);
    }
    V::read_text(text)
}

// `own=` and the value of a party.
fn read_own<V: SheetValue>(line: Line, faulty: u64, party: u64) -> Result<V, LineFault>
    ensures { understood_as V.Value.bytes result ≡ own_line V.SheetValue.reads (replicate V.Value.width 0) faulty party line.entry.text.now }
{
    let text = line.value(b"own")?.text();
    Ok(read_own_text(text, faulty, party)?)
}

// Reads the own values of parties 1 to `parties`, at most 8; the places after them stay blank.
pub fn take_owns<V: SheetValue>(
    cursor: &mut Cursor,
    faulty: u64,
    parties: u64,
) -> Result<[V; 8], SheetFault>
    requires { parties ≤ 8 }
    ensures same { cursor.new.sheet.now ≡ cursor.old.sheet.now }
    ensures passed { OnOk result (cursor.new.passed ≡ cursor.old.passed + parties) }
    ensures rest { IfOk result (λ own. drop parties (map V.Value.bytes own) ≡ replicate (8 - parties) (replicate V.Value.width 0)) }
    ensures value { outcome_as (λ own. take parties (map V.Value.bytes own)) cursor.new.passed result ≡ own_values V.SheetValue.reads (replicate V.Value.width 0) (lines cursor.old.sheet.now) faulty cursor.old.passed parties }
{
    let mut own = [V::blank(); 8];
    for (i, value) in own[..parties as usize].iter_mut().enumerate() {
        let party = i as u64 + 1;
        *value = cursor.take(|line| read_own(line, faulty, party))?;
    }
    Ok(own)
}
