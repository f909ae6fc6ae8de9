// Reads a run sheet, runs its shift, and prints the end.
//   stamp_ring SHEET          the end of the run
//   stamp_ring                the same, the sheet on standard input
//   stamp_ring --steps SHEET  each step of the run, for a person, and then the end
#![tactic(auto)]

mod end;
mod steps;

use crate::end::{print_end, print_stop};
use crate::steps::walk_steps;
use anyhow::Context;
use describe::blank::Places;
use describe::plan::{CAPACITY, MOST_PARTIES, plan_of};
use sheet::reader::{calls, read};
use sheet::setup::{Plan, Setup};
use sheet_lines::call::Call as Line;
use sheet_print::value_text::ValueText;
use shift::call::Call;
use shift::shift::run_shift;
use std::alloc::{AllocError, Global};
use std::fmt::Display;
use std::io::Read;
use std::{env, fs};
use table_wire::table::TableWire;
use tables::tables::Tables;
use values::value::Value;
use wires::fixed::fixed_request;
use wires::wire::Wire;

// The refusal of an unreadable sheet.
const UNREADABLE: u8 = 8;

// Not a From, since both types are of other crates. A line of a sheet as a call on the ring. A number beyond any place finds no message.
fn call_of<V: Value>(line: &Line) -> Call<V> {
    match line {
        Line::Hand(place) => Call::Hand(*place as usize),
        Line::Repeat(place) => Call::Repeat(*place as usize),
        Line::Lose(place) => Call::Lose(*place as usize),
        Line::Timer(party) => Call::Timer(*party),
    }
}

// A loop: a map by a function whose result names the kind of value has no proof yet.
fn ring_calls<V: Value>(heap: Global, lines: &[Line]) -> Result<Vec<Call<V>>, AllocError> {
    let mut calls = Vec::new(heap);
    for line in lines {
        calls.push(call_of(line))?;
    }
    Ok(calls)
}

// Runs the shift over these tables, and prints its end.
fn run_over<V: ValueText, W: Wire<V>>(
    rt: &HostRuntime,
    setup: &Setup<V>,
    calls: &[Call<V>],
    tables: &mut Tables<V>,
    wire: &mut W,
) -> anyhow::Result<()> {
    match run_shift(&plan_of(setup), tables, wire, calls) {
        Ok(refused) => print_end(rt, tables, wire, calls.len(), refused),
        Err(refusal) => print_stop(rt, refusal.number(), None),
    }
}

// Whether each step is shown is the word of the command line, handed down to where the wire is.
fn run_setup<V: ValueText + Display>(
    rt: &HostRuntime,
    setup: &Setup<V>,
    lines: &[Line],
    steps: bool,
) -> anyhow::Result<()> {
    let heap = rt.alloc();
    let mut places = Places::new(heap, MOST_PARTIES)?;
    let mut table = vec![in heap; fixed_request::<V>(); CAPACITY]?;
    let mut tables = places.tables();
    let mut wire = TableWire::new(table.as_mut_slice());
    let calls = ring_calls::<V>(heap, lines)?;
    if steps {
        walk_steps(rt, setup, calls.as_slice(), &mut tables, &mut wire)
    } else {
        run_over(rt, setup, calls.as_slice(), &mut tables, &mut wire)
    }
}

fn run_sheet(rt: &HostRuntime, bytes: &[u8], steps: bool) -> anyhow::Result<()> {
    let plan = match read(bytes) {
        Ok(plan) => plan,
        Err(fault) => return print_stop(rt, UNREADABLE, Some(fault.line)),
    };
    let lines = calls(rt.alloc(), bytes)
        .ok()
        .context("no memory for the calls of the sheet")?;
    // an arm for each kind of value, since each is another type
    match plan {
        Plan::Blocks(setup) => run_setup(rt, &setup, lines.as_slice(), steps),
        Plan::Orders(setup) => run_setup(rt, &setup, lines.as_slice(), steps),
    }
}

fn read_input(rt: &HostRuntime) -> anyhow::Result<Vec<u8>> {
    let mut bytes = Vec::new(rt.alloc());
    let _count = rt.stdin().read_to_end(&mut bytes)?;
    Ok(bytes)
}

fn run(rt: &HostRuntime) -> anyhow::Result<()> {
    let mut args = env::args(rt)?;
    let _ = args.next();
    let mut path = args.next();
    let steps = path.as_ref().is_some_and(|word| word.as_str() == "--steps");
    if steps {
        path = args.next();
    }
    let bytes = match path {
        Some(path) => fs::read(rt, path.as_str())?,
        None => read_input(rt)?,
    };
    run_sheet(rt, bytes.as_slice(), steps)
}

fn main(rt: HostRuntime) -> anyhow::Result<()> {
    run(&rt)
}
