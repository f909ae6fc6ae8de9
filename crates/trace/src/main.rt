// Prints the trace of a shift with liars that speak: every answer, every post, and the end.
//   trace SHIFT..   the traces of these files, one after the other
//   trace           the trace of the shift on standard input
#![tactic(auto)]

mod call;
mod fault;
mod posts;
mod shift_text;
mod trace;

use crate::trace::trace_of;
use std::{env, fs, io};

fn print_trace(rt: &HostRuntime, text: &str) -> anyhow::Result<()> {
    let trace = trace_of(rt.alloc(), text)?;
    rt.print(trace.as_str())?;
    Ok(())
}

fn print_file(rt: &HostRuntime, path: &str) -> anyhow::Result<()> {
    let text = fs::read_to_string(rt, path)?;
    print_trace(rt, text.as_str())
}

fn run(rt: &HostRuntime) -> anyhow::Result<()> {
    let mut paths = env::args(rt)?;
    let _ = paths.next();
    let Some(first) = paths.next() else {
        let text = io::read_to_string(rt.alloc(), rt.stdin())?;
        return print_trace(rt, text.as_str());
    };
    print_file(rt, first.as_str())?;
    for path in paths {
        print_file(rt, path.as_str())?;
    }
    Ok(())
}

fn main(rt: HostRuntime) -> anyhow::Result<()> {
    run(&rt)
}
