// A line for each part of what was understood of a sheet, or the line that is unreadable.
ghost use Rattle.std.specs.Prelude.{◌≡◌, IfOk, string_bytes};
ghost use Rattle.sheet.specs.Sheets.{sheet_means};
ghost use Rattle.sheet_print.specs.Shown.{ReportSays, stopped_shown};

use crate::value_text::ValueText;
use sheet::fault::NoCalls;
use sheet::reader::{calls, read};
use sheet::setup::{Plan, Setup};
use sheet_lines::call::Call;
use std::alloc::{AllocError, Global};
use values::block::Block;
use values::order::Order;
use values::parties::has_party;

// The set of faulty parties as a sheet writes it. Texts that want memory, so no Display of theirs.
fn parties_text(heap: Global, faulty: u64) -> Result<String, AllocError> {
    if faulty == 0 {
        return format!(in heap; "none");
    }
    let mut out = String::new(heap);
    for party in (1..=64).filter(|party| has_party(faulty, *party)) {
        if !out.is_empty() {
            write!(out, ",")?;
        }
        write!(out, "{party}")?;
    }
    Ok(out)
}

// The lines of a setup after its kind.
fn setup_text<V: ValueText>(heap: Global, setup: &Setup<V>) -> Result<String, AllocError> {
    let mut out = String::new(heap);
    writeln!(out, "parties={}", setup.parties)?;
    writeln!(out, "faults={}", setup.faults)?;
    writeln!(out, "faulty={}", parties_text(heap, setup.faulty)?)?;
    for (party, own) in (1..=setup.parties).zip(&setup.own) {
        if has_party(setup.faulty, party) {
            writeln!(out, "own=-")?;
        } else {
            writeln!(out, "own={}", own.to_text(heap)?)?;
        }
    }
    Ok(out)
}

// The lines of a plan and of the calls that follow it; an arm for each kind of value, since each is another type.
fn plan_text(heap: Global, plan: &Plan, calls: &[Call]) -> Result<String, AllocError> {
    let mut out = match plan {
        Plan::Blocks(setup) => format!(in heap; "kind=block\n{}", setup_text(heap, setup)?)?,
        Plan::Orders(setup) => format!(in heap; "kind=order\n{}", setup_text(heap, setup)?)?,
    };
    for call in calls {
        writeln!(out, "{call}")?;
    }
    Ok(out)
}

// The refusal of an unreadable sheet.
fn stopped_text(heap: Global, line: usize) -> Result<String, AllocError>
    ensures { IfOk result (λ s. string_bytes s ≡ stopped_shown line) }
{
    format!(in heap; "stopped=8\nline={line}\n")
}

// What was understood of a sheet, line by line; of an unreadable one the number of its line.
pub fn report(heap: Global, sheet: &[u8]) -> Result<String, AllocError>
    ensures { IfOk result (λ s. ReportSays (sheet_means sheet.now) (string_bytes s)) }
{
    let plan = match read(sheet) {
        Ok(plan) => plan,
        Err(fault) => return stopped_text(heap, fault.line),
    };
    match calls(heap, sheet) {
        Ok(list) => plan_text(heap, &plan, &list),
        Err(NoCalls::Unreadable(fault)) => stopped_text(heap, fault.line),
        Err(NoCalls::Memory) => Err(AllocError),
    }
}
