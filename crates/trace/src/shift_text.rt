// A shift as its text gives it: the set-up of a run sheet, and then calls of any length.
use crate::call::{is_call, read_call};
use anyhow::Context;
use sheet::reader::read;
use sheet::setup::Plan;
use std::alloc::Global;
use values::value::Value;

// How many bytes stand before the first line that names a call. Not the library's sum, which does not saturate.
fn opening_length(text: &str) -> usize {
    let mut length: usize = 0;
    for line in text.split_inclusive('\n') {
        if is_call(line) {
            return length;
        }
        length = length.saturating_add(line.len());
    }
    length
}

// The set-up of a shift, and the lines of its calls. The opening is a run sheet without calls, so the reader of
// sheets reads it.
pub(crate) fn read_opening(text: &str) -> anyhow::Result<(Plan, &str)> {
    let (opening, rest) = text
        .split_at_checked(opening_length(text))
        .context("the shift does not part at a line")?;
    let plan = read(opening.as_bytes())
        .ok()
        .context("the set-up of the shift cannot be read")?;
    Ok((plan, rest))
}

// Whether every line names a call: a shift whose set-up is refused has to be readable too. Otherwise each line is read
// as its call is made, and nothing is printed before the last one: a list of calls would take ten times the room of the
// lines, and a shift has no limit of length.
pub(crate) fn check_calls<V: Value>(heap: Global, lines: &str) -> anyhow::Result<()> {
    for line in lines.lines() {
        let _call = read_call::<V>(heap, line)?;
    }
    Ok(())
}
