// Run sheets as the reader understands them.
use sheet_print::report::report;

// Four parties, one of them silent, and two calls.
const READABLE: &[u8] =
    b"kind=block\nparties=4\nfaults=1\nfaulty=3\nown=100,50,1\nown=200,50,2\nown=-\nown=400,50,4\nhand=0\ntimer=2\n";

// The third line has a number with a leading zero.
const UNREADABLE: &[u8] = b"kind=order\nparties=1\nfaults=00\nfaulty=none\nown=pace,120\n";

// Prints what is understood of both sheets.
pub(crate) fn walk_sheets(rt: &HostRuntime) -> anyhow::Result<()> {
    println!(rt; "a sheet for four parties:")?;
    let understood = report(rt.alloc(), READABLE)?;
    print!(rt; "{understood}")?;
    println!(rt; "a sheet with a bad number:")?;
    let stopped = report(rt.alloc(), UNREADABLE)?;
    print!(rt; "{stopped}")?;
    Ok(())
}
