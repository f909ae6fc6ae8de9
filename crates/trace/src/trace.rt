// The trace of a shift: the posts of its set-up, the answer and the posts of each call, and the end.
use crate::call::read_call;
use crate::fault::CallFault;
use crate::posts::add_posts;
use crate::shift_text::{check_calls, read_opening};
use describe::blank::Places;
use describe::end::add_end;
use describe::plan::{CAPACITY, MOST_PARTIES, plan_of};
use frame_wire::buffer::FrameWire;
use frames::codec::frame_length;
use frames::fault::FrameFault;
use setup::setup::set_up;
use sheet::setup::{Plan, Setup};
use sheet_print::value_text::ValueText;
use shift::call::Call;
use shift::obeying::obey;
use std::alloc::Global;
use std::fmt::Write;
use tables::tables::Tables;
use values::value::Value;
use wires::wire::Wire;

// One call on the ring. Every message that is posted stays at the end of the wire.
fn perform<V: Value, W: Wire<V>>(
    tables: &mut Tables<V>,
    wire: &mut W,
    call: &Result<Call<V>, FrameFault>,
) -> Result<usize, CallFault> {
    // not (*call)?, which would copy the message
    match call {
        Ok(call) => Ok(obey(tables, wire, call)?),
        Err(fault) => Err(CallFault::Frame(*fault)),
    }
}

fn add_call<V: Value, W: Wire<V>>(
    heap: Global,
    out: &mut String,
    tables: &mut Tables<V>,
    wire: &mut W,
    call: &Result<Call<V>, FrameFault>,
) -> anyhow::Result<()> {
    match perform(tables, wire, call) {
        Ok(answer) => {
            writeln!(out, "answer={answer}")?;
            add_posts(heap, out, wire, answer)
        }
        Err(fault) => {
            writeln!(out, "refused={}", fault.number())?;
            Ok(())
        }
    }
}

// The trace over these tables and this wire, which is empty.
fn trace_over<V: ValueText, W: Wire<V>>(
    heap: Global,
    setup: &Setup<V>,
    lines: &str,
    tables: &mut Tables<V>,
    wire: &mut W,
) -> anyhow::Result<String> {
    let mut out = String::new(heap);
    if let Err(refusal) = set_up(&plan_of(setup), tables, wire) {
        check_calls::<V>(heap, lines)?;
        writeln!(out, "refused={}", refusal.number())?;
        return Ok(out);
    }
    add_posts(heap, &mut out, wire, wire.count())?;
    for line in lines.lines() {
        let call = read_call(heap, line)?;
        add_call(heap, &mut out, tables, wire, &call)?;
    }
    add_end(heap, &mut out, tables, wire.count())?;
    Ok(out)
}

fn trace_setup<V: ValueText>(
    heap: Global,
    setup: &Setup<V>,
    lines: &str,
) -> anyhow::Result<String> {
    let mut places = Places::new(heap, MOST_PARTIES)?;
    let mut buffer = vec![in heap; 0u8; CAPACITY * frame_length::<V>()]?;
    let mut tables = places.tables();
    let mut wire = FrameWire::new(buffer.as_mut_slice());
    trace_over(heap, setup, lines, &mut tables, &mut wire)
}

// An arm for each kind of value, since each is another type.
pub(crate) fn trace_of(heap: Global, text: &str) -> anyhow::Result<String> {
    let (plan, lines) = read_opening(text)?;
    match plan {
        Plan::Blocks(setup) => trace_setup(heap, &setup, lines),
        Plan::Orders(setup) => trace_setup(heap, &setup, lines),
    }
}
