// Show: the state of a party, its view, its lock and what it has decided.
ghost use Rattle.std.specs.Prelude.{◌≡◌, ℕ, true, List, []};
ghost use Rattle.messages.specs.Messages.{Msg};
ghost use Rattle.rules.specs.Step.{empty_row};
ghost use Rattle.rows.specs.Meaning.{record_of};
ghost use Rattle.agreement.specs.Calls.{Gives};
ghost use Rattle.agreement.specs.Ring.{shown_party, tables_fit};
ghost use Rattle.agreement.specs.Runs.{obey, call, show as showing};
ghost use Rattle.tables.specs.Meaning.{ring_of};
ghost use Rattle.turns.specs.Meaning.{kind_of};
ghost use Rattle.ring.specs.Meaning.{shown_of, shown_answer};

use crate::shown::{Shown, State};
use members::members::has_party;
use rows::record::Record;
use rows::row::Row;
use tables::liars::is_named;
use tables::refusal::Refusal;
use tables::ring::Ring;
use tables::tables::tables_in_order;
use values::value::Value;

// What is shown of an honest party.
fn shown_record<V: Value>(own: &Record<V>) -> Shown<V>
    ensures { shown_of V.bytes result ≡ shown_party (kind_of V.width V.valid V.allows) (record { rec = record_of V.bytes own.now; rows = λ _. empty_row }) (record_of V.bytes own.now).decision }
{
    let (state, value) = match own.decision {
        Some(value) => (State::Decided, value),
        None => (State::Open, V::blank()),
    };
    Shown {
        state,
        view: own.view,
        lock: own.lock.at,
        value,
    }
}

// Shows a party, over tables that fit. Nothing is changed.
pub fn look_up<V: Value>(
    ring: &Ring,
    records: &[Record<V>],
    rows: &[Row<V>],
    party: u64,
) -> Result<Shown<V>, Refusal>
    requires { true ≡ tables_fit (ring_of V.bytes ring.now records.now rows.now [] 0) }
    ensures { (wire : List Msg) (capacity : ℕ) → Gives (obey (kind_of V.width V.valid V.allows) (ring_of V.bytes ring.now records.now rows.now wire capacity) (showing party)) (shown_answer V.bytes result) (ring_of V.bytes ring.now records.now rows.now wire capacity) }
{
    // what is shown stands in the record alone; the rows are a part of the ring that the contract speaks of
    let _ = rows;
    if !has_party(ring, party) {
        return Err(Refusal::NoParty);
    }
    if is_named(ring.faulty, party as u8) {
        return Ok(Shown {
            state: State::Faulty,
            view: 0,
            lock: 0,
            value: V::blank(),
        });
    }
    Ok(shown_record(&records[party as usize - 1]))
}

// Shows a party. Nothing is changed.
pub fn show<V: Value>(
    ring: &Ring,
    records: &[Record<V>],
    rows: &[Row<V>],
    party: u64,
) -> Result<Shown<V>, Refusal>
    ensures { (wire : List Msg) (capacity : ℕ) → Gives (call (kind_of V.width V.valid V.allows) (ring_of V.bytes ring.now records.now rows.now wire capacity) (showing party)) (shown_answer V.bytes result) (ring_of V.bytes ring.now records.now rows.now wire capacity) }
{
    if !tables_in_order(ring, records, rows) {
        return Err(Refusal::Tables);
    }
    look_up(ring, records, rows, party)
}
