// What one call on a ring did, for a person: what a party posted, and what changed in its record.
use crate::record::print_change;
use rows::record::Record;
use std::fmt::Display;
use tables::refusal::Refusal;
use values::value::Value;
use wires::wire::Wire;

// The message at a place, or that none waits there.
pub fn print_place<V: Value + Display, W: Wire<V>>(
    rt: &HostRuntime,
    wire: &W,
    place: usize,
) -> anyhow::Result<()> {
    match wire.look(place) {
        Ok(m) => println!(rt; "{m}")?,
        Err(_) => println!(rt; "nothing waits there")?,
    }
    Ok(())
}

// The record of a party, if the table has it.
pub fn record_of<V: Value>(records: &[Record<V>], party: usize) -> Option<Record<V>> {
    records.get(party.checked_sub(1)?).copied()
}

// The last messages of the wire, which a call has just posted.
pub fn print_posts<V: Value + Display, W: Wire<V>>(
    rt: &HostRuntime,
    wire: &W,
    posts: usize,
) -> anyhow::Result<()> {
    let count = wire.count();
    for place in count.saturating_sub(posts)..count {
        print!(rt; "    posts ")?;
        print_place(rt, wire, place)?;
    }
    Ok(())
}

// What a call did to the party whose step it was, if it was one's, or its refusal.
pub fn print_outcome<V: Value + Display, W: Wire<V>>(
    rt: &HostRuntime,
    wire: &W,
    old: &Option<Record<V>>,
    new: &Option<Record<V>>,
    answer: Result<usize, Refusal>,
) -> anyhow::Result<()> {
    match answer {
        Ok(posts) => {
            if let (Some(before), Some(after)) = (old, new) {
                print_change(rt, before, after)?;
            }
            print_posts(rt, wire, posts)
        }
        Err(refusal) => {
            println!(rt; "    refused with {}", refusal.number())?;
            Ok(())
        }
    }
}
