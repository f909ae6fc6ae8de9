// A run step by step, for a person: who got what from whom, what it posted, what changed; and then its end.
use crate::end::{print_end, print_stop};
use describe::plan::plan_of;
use describe::steps::{print_outcome, print_place, print_posts, record_of};
use rows::record::Record;
use setup::setup::set_up;
use sheet::setup::Setup;
use sheet_print::value_text::ValueText;
use shift::call::Call;
use shift::obeying::obey;
use std::fmt::Display;
use tables::tables::Tables;
use values::value::Value;
use wires::wire::Wire;

// What a call is about, before it is made: the message at its place, or the party.
fn print_call<V: Value + Display, W: Wire<V>>(
    rt: &HostRuntime,
    wire: &W,
    call: &Call<V>,
) -> anyhow::Result<()> {
    match call {
        Call::Hand(place) => {
            print!(rt; "hand {place}: ")?;
            print_place(rt, wire, *place)?;
        }
        Call::Repeat(place) => {
            print!(rt; "repeat {place}: ")?;
            print_place(rt, wire, *place)?;
        }
        Call::Lose(place) => {
            print!(rt; "lose {place}: ")?;
            print_place(rt, wire, *place)?;
        }
        Call::Send(m) => println!(rt; "send {m}")?,
        Call::Timer(party) => println!(rt; "timer of {party}")?,
        Call::Show(party) => println!(rt; "show {party}")?,
    }
    Ok(())
}

// The party whose step a call is, if it is one's.
fn stepping<V: Value, W: Wire<V>>(wire: &W, call: &Call<V>) -> Option<usize> {
    match call {
        Call::Hand(place) | Call::Repeat(place) => Some(wire.look(*place).ok()?.to as usize),
        Call::Timer(party) => Some(*party as usize),
        Call::Lose(_) | Call::Send(_) | Call::Show(_) => None,
    }
}

// The record of the party, if a call is a step of one.
fn own_of<V: Value>(tables: &Tables<V>, party: Option<usize>) -> Option<Record<V>> {
    let records = &*tables.records;
    record_of(records, party?)
}

// Makes one call and prints what it did; answers whether it was refused.
fn walk_call<V: Value + Display, W: Wire<V>>(
    rt: &HostRuntime,
    tables: &mut Tables<V>,
    wire: &mut W,
    call: &Call<V>,
) -> anyhow::Result<bool> {
    print_call(rt, wire, call)?;
    let party = stepping(wire, call);
    let before = own_of(tables, party);
    let answer = obey(tables, wire, call);
    print_outcome(rt, wire, &before, &own_of(tables, party), answer)?;
    Ok(answer.is_err())
}

pub(crate) fn walk_steps<V: ValueText + Display, W: Wire<V>>(
    rt: &HostRuntime,
    setup: &Setup<V>,
    calls: &[Call<V>],
    tables: &mut Tables<V>,
    wire: &mut W,
) -> anyhow::Result<()> {
    if let Err(refusal) = set_up(&plan_of(setup), tables, wire) {
        return print_stop(rt, refusal.number(), None);
    }
    println!(rt; "set-up: every honest party enters view 1")?;
    print_posts(rt, wire, wire.count())?;
    let mut refused: usize = 0;
    for call in calls {
        if walk_call(rt, tables, wire, call)? {
            refused = refused.saturating_add(1);
        }
    }
    print_end(rt, tables, wire, calls.len(), refused)
}
