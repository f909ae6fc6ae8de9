// The lines before the calls.
ghost use Rattle.std.specs.Prelude.{◌≡◌, ◌+◌, ◌≤◌, map, replicate, IfOk, Ok, Err, MatchResult, OnOk};
ghost use Rattle.sheet_lines.specs.Lines.{lines};
ghost use Rattle.sheet_lines.specs.Faults.{outcome_as, fault_line};
ghost use Rattle.sheet.specs.Sheets.{own_list, setting_part};
ghost use Rattle.sheet.specs.Plans.{plan_means};

use crate::opening::{Faults, take_faults};
use crate::owns::take_owns;
use crate::setup::{Plan, Setup};
use sheet_fields::value_text::SheetValue;
use sheet_lines::cursor::Cursor;
use sheet_lines::fault::SheetFault;
use sheet_lines::kind::Kind;
use sheet_lines::readers::{read_count, read_kind};

// Reads the own lines, and puts all of a setup together. That the cursor stays on its sheet is one
// equation in each contract (`same`): a name for it would be no plainer.
fn read_setup<V: SheetValue>(
    cursor: &mut Cursor,
    parties: u64,
    faults: Faults,
) -> Result<Setup<V>, SheetFault>
    requires { parties ≤ 8 }
    ensures same { cursor.new.sheet.now ≡ cursor.old.sheet.now }
    ensures passed { OnOk result (cursor.new.passed ≡ cursor.old.passed + parties) }
    ensures given { IfOk result (λ s. (s.parties ≡ parties) × (s.faults ≡ faults.most) × (s.faulty ≡ faults.parties)) }
    ensures value { outcome_as (λ s. map V.Value.bytes s.own) cursor.new.passed result ≡ own_list V.SheetValue.reads (replicate V.Value.width 0) (lines cursor.old.sheet.now) faults.parties cursor.old.passed parties }
{
    let own = take_owns(cursor, faults.parties, parties)?;
    Ok(Setup {
        parties,
        faults: faults.most,
        faulty: faults.parties,
        own,
    })
}

// Reads the lines before the calls.
pub fn read_plan(cursor: &mut Cursor) -> Result<Plan, SheetFault>
    requires { cursor.old.passed ≡ 0 }
    ensures same { cursor.new.sheet.now ≡ cursor.old.sheet.now }
    ensures value { MatchResult result (λ p. setting_part (lines cursor.old.sheet.now) ≡ Ok (plan_means p cursor.new.passed)) (λ e. setting_part (lines cursor.old.sheet.now) ≡ Err (fault_line cursor.new.passed e)) }
{
    let kind = cursor.take(read_kind)?;
    let parties = cursor.take(read_count)?;
    let faults = take_faults(cursor, parties)?;
    // an arm for each kind of value, since each is another type
    match kind {
        Kind::Blocks => read_setup(cursor, parties, faults).map(Plan::Blocks),
        Kind::Orders => read_setup(cursor, parties, faults).map(Plan::Orders),
    }
}
