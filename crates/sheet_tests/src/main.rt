// Reads each sheet that its arguments name, and prints what was understood of it.
#![tactic(auto)]

use sheet_print::report::report;
use std::{env, fs};

fn show(rt: &HostRuntime, name: &str) -> anyhow::Result<()> {
    let sheet = fs::read(rt, name)?;
    let text = report(rt.alloc(), &sheet)?;
    println!(rt; "[{name}]")?;
    print!(rt; "{text}")?;
    Ok(())
}

fn run(rt: &HostRuntime) -> anyhow::Result<()> {
    for name in env::args(rt)?.skip(1) {
        show(rt, name.as_str())?;
    }
    Ok(())
}

fn main(rt: HostRuntime) -> anyhow::Result<()> {
    run(&rt)
}
