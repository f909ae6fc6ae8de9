// Messages travel over a wire, whichever it is.
use messages::message::Message;
use std::fmt::Display;
use values::value::Value;
use wires::fault::WireFault;
use wires::wire::Wire;

fn print_state<V: Value + Display, W: Wire<V>>(rt: &HostRuntime, wire: &W) -> anyhow::Result<()> {
    let count = wire.count();
    let room = wire.room();
    println!(rt; "  {count} waiting, room for {room}")?;
    Ok(())
}

// Prints the message at a place, with words around the place, or the refusal.
fn print_place<V: Value + Display>(
    rt: &HostRuntime,
    before: &str,
    place: usize,
    after: &str,
    answer: Result<Message<V>, WireFault>,
) -> anyhow::Result<()> {
    match answer {
        Ok(m) => println!(rt; "  {before}place {place}{after} {m}")?,
        Err(fault) => println!(rt; "  place {place} refused with {}", fault.number())?,
    }
    Ok(())
}

// Takes out one place and prints what was there, or the refusal.
fn take_and_print<V: Value + Display, W: Wire<V>>(
    rt: &HostRuntime,
    wire: &mut W,
    place: usize,
) -> anyhow::Result<()> {
    print_place(rt, "took out ", place, ":", wire.take_out(place))?;
    print_state(rt, wire)
}

fn post_and_print<V: Value + Display, W: Wire<V>>(
    rt: &HostRuntime,
    wire: &mut W,
    m: &Message<V>,
) -> anyhow::Result<()> {
    match wire.post(m) {
        Ok(()) => println!(rt; "  posted: {m}")?,
        Err(fault) => println!(rt; "  refused with {}: {m}", fault.number())?,
    }
    Ok(())
}

// Posts all messages, looks at the second, and takes them out in another order until none is left.
pub(crate) fn walk_wire<V: Value + Display, W: Wire<V>>(
    rt: &HostRuntime,
    wire: &mut W,
    messages: &[Message<V>],
) -> anyhow::Result<()> {
    print_state(rt, wire)?;
    for m in messages {
        post_and_print(rt, wire, m)?;
    }
    print_state(rt, wire)?;
    print_place(rt, "", 1, " holds", wire.look(1))?;
    take_and_print(rt, wire, 1)?;
    take_and_print(rt, wire, 0)?;
    take_and_print(rt, wire, 0)
}
