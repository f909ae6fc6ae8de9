// The call lines of a sheet.
ghost use Rattle.std.specs.Prelude.{◌≡◌, Ok, MatchResult};
ghost use Rattle.sheet_fields.specs.Cuts.{understood};
ghost use Rattle.sheet_lines.specs.Lines.{lines};
ghost use Rattle.sheet_lines.specs.Faults.{outcome};
ghost use Rattle.sheet_lines.specs.Readings.{call_line};
ghost use Rattle.sheet.specs.Sheets.{call_list, sized};
ghost use Rattle.sheet.specs.Answers.{LinesStopped};

use crate::fault::NoCalls;
use sheet_fields::texts::is_text;
use sheet_lines::call::Call;
use sheet_lines::cursor::{Cursor, Line};
use sheet_lines::fault::{LineFault, SheetFault};
use std::alloc::Global;

// By tests of a text, as the kind is read.
// `hand=`, `repeat=`, `lose=` or `timer=` and a number.
fn read_call(line: Line) -> Result<Call, LineFault>
    ensures { understood result ≡ call_line line.entry.text.now }
{
    let name = line.name()?.text();
    if is_text(name, b"hand") {
        return Ok(Call::Hand(line.number(b"hand")?.count()?));
    }
    if is_text(name, b"repeat") {
        return Ok(Call::Repeat(line.number(b"repeat")?.count()?));
    }
    if is_text(name, b"lose") {
        return Ok(Call::Lose(line.number(b"lose")?.count()?));
    }
    if is_text(name, b"timer") {
        return Ok(Call::Timer(line.number(b"timer")?.count()?));
    }
    Err(LineFault::OtherName)
}

// Reads all lines that are left as calls, and counts them. A `while` here and below: an iterator over
// a cursor's lines would give a line or a fault each time, which reads no plainer.
pub fn pass_calls(cursor: &mut Cursor) -> Result<usize, SheetFault>
    ensures value { outcome cursor.new.passed result ≡ sized (call_list (lines cursor.old.sheet.now) cursor.old.passed) }
{
    let first = cursor.passed_lines();
    while !cursor.at_end() {
        let _ = cursor.take(read_call)?;
    }
    Ok(cursor.passed_lines() - first)
}

// Reads all lines that are left as calls, and keeps them.
pub fn take_calls(heap: Global, cursor: &mut Cursor) -> Result<Vec<Call>, NoCalls<SheetFault>>
    ensures value { MatchResult result (λ v. call_list (lines cursor.old.sheet.now) cursor.old.passed ≡ Ok v.items) (LinesStopped (call_list (lines cursor.old.sheet.now) cursor.old.passed) cursor.new.passed) }
{
    let mut calls = Vec::new(heap);
    while !cursor.at_end() {
        calls.push(cursor.take(read_call)?)?;
    }
    Ok(calls)
}
