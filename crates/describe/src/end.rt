// The end of a shift, as its listing has it.
use anyhow::Context;
use ring::lookup::show;
use ring::shown::State;
use sheet_print::value_text::ValueText;
use std::alloc::Global;
use std::fmt::Write;
use tables::tables::Tables;

fn add_party<V: ValueText>(
    heap: Global,
    out: &mut String,
    tables: &Tables<V>,
    party: u8,
) -> anyhow::Result<()> {
    let seen = tables.shared();
    let shown = show(&seen.ring, seen.records, seen.rows, u64::from(party))
        .ok()
        .context("a party of the ring was not shown")?;
    let state = shown.state;
    let view = shown.view;
    let lock = shown.lock;
    writeln!(
        out,
        "party={party}\nstate={state}\nview={view}\nlock={lock}"
    )?;
    match state {
        State::Decided => {
            let value = shown.value.to_text(heap)?;
            writeln!(out, "value={value}")?;
        }
        State::Faulty | State::Open => writeln!(out, "value=none")?,
    }
    Ok(())
}

// Adds how many messages wait, and each party.
pub fn add_end<V: ValueText>(
    heap: Global,
    out: &mut String,
    tables: &Tables<V>,
    waiting: usize,
) -> anyhow::Result<()> {
    writeln!(out, "waiting={waiting}")?;
    for party in 1..=tables.ring.n {
        add_party(heap, out, tables, party)?;
    }
    Ok(())
}
