// Hand and repeat: a message reaches its receiver, and is taken out or kept.
ghost use Rattle.std.specs.Prelude.{◌≡◌, if◌then◌else◌, OnErr};
ghost use Rattle.agreement.specs.Calls.{Gives};
ghost use Rattle.agreement.specs.Runs.{call, hand as handing, repeat as repeating};
ghost use Rattle.tables.specs.Meaning.{ring_in, SameTables, answer_of};
ghost use Rattle.turns.specs.Meaning.{kind_of};

use handover::delivery::bring;
use tables::refusal::Refusal;
use tables::tables::{Tables, tables_in_order};
use values::value::Value;
use wires::wire::Wire;

// Brings the message at a place to its receiver. It is kept or taken out; hand and repeat differ in nothing else.
fn deliver<V: Value, W: Wire<V>>(
    tables: &mut Tables<V>,
    wire: &mut W,
    place: usize,
    keep: bool,
) -> Result<usize, Refusal>
    ensures lent { SameTables tables.old tables.new }
    ensures gives { Gives (call (kind_of V.width V.valid V.allows) (ring_in V.bytes tables.old (W.waiting wire.old) (W.capacity wire.old)) (if keep then repeating place else handing place)) (answer_of result) (ring_in V.bytes tables.new (W.waiting wire.new) (W.capacity wire.new)) }
    ensures untouched { OnErr result ((tables.new.records.now ≡ tables.old.records.now) × (tables.new.rows.now ≡ tables.old.rows.now)) }
{
    let seen = tables.shared();
    if !tables_in_order(&seen.ring, seen.records, seen.rows) {
        return Err(Refusal::Tables);
    }
    bring(tables, wire, place, keep)
}

// Takes out the message at a place and hands it to its receiver. Answers how many messages that posts.
pub fn hand<V: Value, W: Wire<V>>(
    tables: &mut Tables<V>,
    wire: &mut W,
    place: usize,
) -> Result<usize, Refusal>
    ensures lent { SameTables tables.old tables.new }
    ensures gives { Gives (call (kind_of V.width V.valid V.allows) (ring_in V.bytes tables.old (W.waiting wire.old) (W.capacity wire.old)) (handing place)) (answer_of result) (ring_in V.bytes tables.new (W.waiting wire.new) (W.capacity wire.new)) }
    ensures untouched { OnErr result ((tables.new.records.now ≡ tables.old.records.now) × (tables.new.rows.now ≡ tables.old.rows.now)) }
{
    deliver(tables, wire, place, false)
}

// Hands a message to its receiver and leaves it where it is. Answers how many messages that posts.
pub fn repeat<V: Value, W: Wire<V>>(
    tables: &mut Tables<V>,
    wire: &mut W,
    place: usize,
) -> Result<usize, Refusal>
    ensures lent { SameTables tables.old tables.new }
    ensures gives { Gives (call (kind_of V.width V.valid V.allows) (ring_in V.bytes tables.old (W.waiting wire.old) (W.capacity wire.old)) (repeating place)) (answer_of result) (ring_in V.bytes tables.new (W.waiting wire.new) (W.capacity wire.new)) }
    ensures untouched { OnErr result ((tables.new.records.now ≡ tables.old.records.now) × (tables.new.rows.now ≡ tables.old.rows.now)) }
{
    deliver(tables, wire, place, true)
}
