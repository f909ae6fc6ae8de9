// A message reaches its receiver, and is taken out or kept.
ghost use Rattle.std.specs.Prelude.{◌≡◌, ◌+◌, ◌*◌, ◌≤◌, true, ◌&&◌, [], length, IfOk, if◌then◌else◌, OnErr};
ghost use Rattle.messages.specs.Messages.{between, in_range};
ghost use Rattle.messages.specs.Meaning.{message};
ghost use Rattle.wires.specs.Wire.{looked, taken};
ghost use Rattle.agreement.specs.Ring.{tables_fit};
ghost use Rattle.agreement.specs.Calls.{said, deliver, bring_found, Gives};
ghost use Rattle.tables.specs.Meaning.{ring_in, SameTables, answer_of, result_of};
ghost use Rattle.turns.specs.Meaning.{kind_of};
ghost use Rattle.handover.specs.Admission.{admitted};

use members::members::{has_both, has_room};
use messages::message::Message;
use tables::liars::is_named;
use tables::refusal::Refusal;
use tables::ring::Ring;
use tables::tables::Tables;
use turns::handling::receive;
use values::value::Value;
use wires::wire::Wire;

// The message at a place, if it may be brought: it is between parties of the ring, and there is room for a step.
fn admit<V: Value, W: Wire<V>>(ring: &Ring, wire: &W, place: usize) -> Result<Message<V>, Refusal>
    ensures value { result_of (message V.bytes) result ≡ admitted ring.now.n (W.capacity wire.now) (W.waiting wire.now) (looked (W.waiting wire.now) place) }
    ensures ranged { IfOk result (λ m. in_range V.valid V.width (message V.bytes m) ≡ true) }
{
    let m = wire.look(place)?;
    if !has_both(ring, &m) {
        return Err(Refusal::NoParty);
    }
    if !has_room(ring, wire) {
        return Err(Refusal::NoRoom);
    }
    Ok(m)
}

// Takes a message out, unless it is kept: hand and repeat differ in this alone, and one contract says both.
fn take_unless<V: Value, W: Wire<V>>(wire: &mut W, place: usize, keep: bool)
    ensures kept { W.capacity wire.new ≡ W.capacity wire.old }
    ensures after { W.waiting wire.new ≡ (if keep then W.waiting wire.old else taken (W.waiting wire.old) place) }
{
    if !keep {
        let _ = wire.take_out(place);
    }
}

// A message reaches its receiver. A faulty one does nothing with it.
fn reach<V: Value, W: Wire<V>>(tables: &mut Tables<V>, wire: &mut W, m: &Message<V>) -> usize
    requires fit { true ≡ tables_fit (ring_in V.bytes tables.old [] 0) }
    requires known { true ≡ (between 1 tables.old.ring.n m.now.from && between 1 tables.old.ring.n m.now.to) }
    requires ranged { in_range V.valid V.width (message V.bytes m.now) ≡ true }
    requires room { length (W.waiting wire.old) + (3 * tables.old.ring.n + 8) ≤ W.capacity wire.old }
    ensures gives { Gives (deliver (kind_of V.width V.valid V.allows) (ring_in V.bytes tables.old (W.waiting wire.old) (W.capacity wire.old)) (message V.bytes m.now) (W.waiting wire.old)) (said result) (ring_in V.bytes tables.new (W.waiting wire.new) (W.capacity wire.new)) }
    ensures fit { true ≡ tables_fit (ring_in V.bytes tables.new [] 0) }
    ensures lent { SameTables tables.old tables.new }
{
    if is_named(tables.ring.faulty, m.to) {
        return 0;
    }
    receive(tables, wire, m)
}

// Brings the message at a place to its receiver, over tables that fit.
pub fn bring<V: Value, W: Wire<V>>(
    tables: &mut Tables<V>,
    wire: &mut W,
    place: usize,
    keep: bool,
) -> Result<usize, Refusal>
    requires { true ≡ tables_fit (ring_in V.bytes tables.old [] 0) }
    ensures gives { Gives (bring_found (kind_of V.width V.valid V.allows) (ring_in V.bytes tables.old (W.waiting wire.old) (W.capacity wire.old)) (looked (W.waiting wire.old) place) (if keep then W.waiting wire.old else taken (W.waiting wire.old) place)) (answer_of result) (ring_in V.bytes tables.new (W.waiting wire.new) (W.capacity wire.new)) }
    ensures fit { true ≡ tables_fit (ring_in V.bytes tables.new [] 0) }
    ensures untouched { OnErr result ((tables.new.records.now ≡ tables.old.records.now) × (tables.new.rows.now ≡ tables.old.rows.now)) }
    ensures lent { SameTables tables.old tables.new }
{
    let m = admit(&tables.ring, wire, place)?;
    take_unless(wire, place, keep);
    Ok(reach(tables, wire, &m))
}
