// What a step changed in a party's record, in plain words.
use rows::keys::Keyed;
use rows::record::{Proposal, Record};
use std::fmt::Display;
use values::value::Value;

fn print_key<V: Value + Display>(
    rt: &HostRuntime,
    name: &str,
    old: &Keyed<V>,
    new: &Keyed<V>,
) -> anyhow::Result<()> {
    if old.at != new.at {
        let at = new.at;
        let value = &new.value;
        println!(rt; "    {name} is now {at}, {value}")?;
    }
    Ok(())
}

// What is new where there was nothing before.
fn print_new<V: Value + Display>(
    rt: &HostRuntime,
    what: &str,
    old: &Option<V>,
    new: &Option<V>,
) -> anyhow::Result<()> {
    if let (None, Some(value)) = (old, new) {
        println!(rt; "    {what} {value}")?;
    }
    Ok(())
}

// The names of a listing, not of the type.
fn proposal_name<V>(proposal: &Proposal<V>) -> &'static str {
    match proposal {
        Proposal::Nothing => "none",
        Proposal::Waiting(_) => "waiting",
        Proposal::Echoed(_) => "echoed",
        Proposal::Dropped => "dropped",
    }
}

// Each part of the record that is another than before.
pub fn print_change<V: Value + Display>(
    rt: &HostRuntime,
    old: &Record<V>,
    new: &Record<V>,
) -> anyhow::Result<()> {
    if old.view != new.view {
        let view = new.view;
        println!(rt; "    enters view {view}")?;
    }
    print_key(rt, "key1", &old.key1, &new.key1)?;
    print_key(rt, "key2", &old.key2, &new.key2)?;
    print_key(rt, "key3", &old.key3, &new.key3)?;
    print_key(rt, "lock", &old.lock, &new.lock)?;
    let state = proposal_name(&new.proposal);
    if proposal_name(&old.proposal) != state {
        println!(rt; "    the proposal is now {state}")?;
    }
    print_new(rt, "has sent done for", &old.done, &new.done)?;
    print_new(rt, "has decided", &old.decision, &new.decision)
}
