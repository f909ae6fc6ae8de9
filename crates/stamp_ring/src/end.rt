// The end of a run as its listing has it.
use describe::end::add_end;
use sheet_print::value_text::ValueText;
use tables::tables::Tables;
use wires::wire::Wire;

// A sheet that was not run: the number of the refusal, and the line at fault, 0 where there is none.
pub(crate) fn print_stop(rt: &HostRuntime, number: u8, line: Option<usize>) -> anyhow::Result<()> {
    println!(rt; "stopped={number}\nline={}", line.unwrap_or(0))?;
    Ok(())
}

// How many calls there were, how many were refused, what waits, and each party.
pub(crate) fn print_end<V: ValueText, W: Wire<V>>(
    rt: &HostRuntime,
    tables: &Tables<V>,
    wire: &W,
    calls: usize,
    refused: usize,
) -> anyhow::Result<()> {
    println!(rt; "calls={calls}\nrefused={refused}")?;
    let mut end = String::new(rt.alloc());
    add_end(rt.alloc(), &mut end, tables, wire.count())?;
    print!(rt; "{end}")?;
    Ok(())
}
