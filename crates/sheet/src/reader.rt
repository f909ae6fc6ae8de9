// The reader of whole sheets. It runs nothing.
ghost use Rattle.std.specs.Prelude.{◌≡◌, Ok, Err, MatchResult};
ghost use Rattle.sheet_lines.specs.Faults.{fault_line, fault_number};
ghost use Rattle.sheet.specs.Sheets.{sheet_means, calls_of};
ghost use Rattle.sheet.specs.Plans.{PlanMeant};
ghost use Rattle.sheet.specs.Answers.{HasNoCalls, LinesStopped};

use crate::calls::{pass_calls, take_calls};
use crate::fault::{NoCalls, Unreadable};
use crate::plan::read_plan;
use crate::setup::Plan;
use sheet_lines::call::Call;
use sheet_lines::cursor::Cursor;
use sheet_lines::fault::SheetFault;
use std::alloc::Global;

// Goes through all lines.
fn read_lines(cursor: &mut Cursor) -> Result<Plan, SheetFault>
    requires { cursor.old.passed ≡ 0 }
    ensures { MatchResult result (λ p. PlanMeant (sheet_means cursor.old.sheet.now) p) (λ e. sheet_means cursor.old.sheet.now ≡ Err (fault_line cursor.new.passed e)) }
{
    let plan = read_plan(cursor)?;
    let _ = pass_calls(cursor)?;
    Ok(plan)
}

// The fault with the number of its line: a missing line is the next, any other the last one passed.
fn placed(cursor: &Cursor, fault: SheetFault) -> Unreadable
    ensures { (result.line ≡ fault_line cursor.now.passed fault) × (result.fault ≡ fault) }
{
    let passed = cursor.passed_lines();
    let line = match fault {
        SheetFault::Missing => passed + 1,
        SheetFault::TooLong => passed,
        SheetFault::Line(_) => passed,
    };
    Unreadable { line, fault }
}

// Reads a sheet: a plan exactly if every line is readable and none is missing, with exactly that
// meaning; else the number of the first line at fault.
pub fn read(sheet: &[u8]) -> Result<Plan, Unreadable>
    ensures { MatchResult result (PlanMeant (sheet_means sheet.now)) (λ u. (sheet_means sheet.now ≡ Err u.line) × (fault_number u.fault ≡ 8)) }
{
    let mut cursor = Cursor::new(sheet);
    // a match, since the proof of a closure for map_err would know nothing of the cursor
    match read_lines(&mut cursor) {
        Ok(plan) => Ok(plan),
        Err(fault) => Err(placed(&cursor, fault)),
    }
}

// Goes through all lines and keeps the calls.
fn collect(heap: Global, cursor: &mut Cursor) -> Result<Vec<Call>, NoCalls<SheetFault>>
    requires { cursor.old.passed ≡ 0 }
    ensures { MatchResult result (λ v. calls_of (sheet_means cursor.old.sheet.now) ≡ Ok v.items) (LinesStopped (sheet_means cursor.old.sheet.now) cursor.new.passed) }
{
    let _ = read_plan(cursor)?;
    take_calls(heap, cursor)
}

// The calls of a readable sheet, in order; else the first line at fault, or want of memory.
pub fn calls(heap: Global, sheet: &[u8]) -> Result<Vec<Call>, NoCalls<Unreadable>>
    ensures { MatchResult result (λ v. calls_of (sheet_means sheet.now) ≡ Ok v.items) (HasNoCalls (sheet_means sheet.now)) }
{
    let mut cursor = Cursor::new(sheet);
    // a match, as in `read`
    match collect(heap, &mut cursor) {
        Ok(calls) => Ok(calls),
        Err(NoCalls::Unreadable(fault)) => Err(NoCalls::Unreadable(placed(&cursor, fault))),
        Err(NoCalls::Memory) => Err(NoCalls::Memory),
    }
}
