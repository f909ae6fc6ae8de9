// Lock and done: how a party comes to its decision.
ghost use Rattle.std.specs.Prelude.{◌≡◌, ◌&&◌, ◌≤◌};
ghost use Rattle.messages.specs.Meaning.{message};
ghost use Rattle.rules.specs.Party.{none};
ghost use Rattle.rules.specs.Tests.{voted, done_vouched, done_agreed};
ghost use Rattle.rules.specs.Step.{say_done, on_lock, join_done, decide, on_done};
ghost use Rattle.rows.specs.Meaning.{setting_of, record_of};
ghost use Rattle.rows.specs.Parties.{party_in, StaysAt};
ghost use Rattle.posting.specs.Posting.{Takes, Does};

use claims::votes::{Told, Votes};
use messages::message::Message;
use notes::notes::{note_done, note_vote};
use posting::sends::send_done;
use rows::party::Party;
use rows::vote::Vote;
use tally::thresholds::{has_quorum, has_voucher};
use values::value::Value;
use wires::wire::Wire;

// Whether no done was sent and a quorum has locked the value.
fn due_by_locks<V: Value>(party: &Party<V>, value: &V) -> bool
    ensures { result ≡ (none (record_of V.bytes party.now.own.now).done && voted (setting_of V.width V.allows party.now.seat) (party_in V.bytes party.now) 9 (V.bytes value.now)) }
{
    let claim = Votes {
        vote: Vote::Lock,
        value: *value,
    };
    party.own.done.is_none() && has_quorum(party, &claim)
}

// Whether no done was sent and a voucher is done with the value. Claim and threshold both differ from the test above.
fn due_by_dones<V: Value>(party: &Party<V>, value: &V) -> bool
    ensures { result ≡ (none (record_of V.bytes party.now.own.now).done && done_vouched (setting_of V.width V.allows party.now.seat) (party_in V.bytes party.now) (V.bytes value.now)) }
{
    party.own.done.is_none() && has_voucher(party, &Told { value: *value })
}

// Sends done, and keeps its value.
fn tell_done<V: Value, W: Wire<V>>(party: &mut Party<V>, w: &mut W, value: &V) -> usize
    requires { Takes V.valid V.width (W.capacity w.old) (W.waiting w.old) (say_done (setting_of V.width V.allows party.old.seat) party.old.seat.me (party_in V.bytes party.old) (V.bytes value.now)).posts }
    ensures lent { StaysAt party.old party.new }
    ensures step { Does (say_done (setting_of V.width V.allows party.old.seat) party.old.seat.me (party_in V.bytes party.old) (V.bytes value.now)) (party_in V.bytes party.new) (W.waiting w.old) (W.waiting w.new) (W.capacity w.old) (W.capacity w.new) result }
{
    let posts = send_done(party, w, value);
    party.own.done = Some(*value);
    posts
}

// A lock is stored; with a quorum for its value done is sent, if none was.
pub fn on_lock<V: Value, W: Wire<V>>(party: &mut Party<V>, w: &mut W, m: &Message<V>) -> usize
    requires whole { (1 ≤ m.now.from) × (m.now.from ≤ party.old.seat.n) × (m.now.kind ≡ 9) }
    requires taken { Takes V.valid V.width (W.capacity w.old) (W.waiting w.old) (on_lock (setting_of V.width V.allows party.old.seat) party.old.seat.me (party_in V.bytes party.old) (message V.bytes m.now)).posts }
    ensures lent { StaysAt party.old party.new }
    ensures step { Does (on_lock (setting_of V.width V.allows party.old.seat) party.old.seat.me (party_in V.bytes party.old) (message V.bytes m.now)) (party_in V.bytes party.new) (W.waiting w.old) (W.waiting w.new) (W.capacity w.old) (W.capacity w.new) result }
{
    note_vote(party.rows, m.from, Vote::Lock, &m.value);
    if due_by_locks(party, &m.value) {
        tell_done(party, w, &m.value)
    } else {
        0
    }
}

// With a voucher for the value done is sent, if none was.
fn follow_done<V: Value, W: Wire<V>>(party: &mut Party<V>, w: &mut W, value: &V) -> usize
    requires { Takes V.valid V.width (W.capacity w.old) (W.waiting w.old) (join_done (setting_of V.width V.allows party.old.seat) party.old.seat.me (party_in V.bytes party.old) (V.bytes value.now)).posts }
    ensures lent { StaysAt party.old party.new }
    ensures step { Does (join_done (setting_of V.width V.allows party.old.seat) party.old.seat.me (party_in V.bytes party.old) (V.bytes value.now)) (party_in V.bytes party.new) (W.waiting w.old) (W.waiting w.new) (W.capacity w.old) (W.capacity w.new) result }
{
    if due_by_dones(party, value) {
        tell_done(party, w, value)
    } else {
        0
    }
}

// With a quorum for the value it is decided.
fn try_decide<V: Value>(party: &mut Party<V>, value: &V)
    ensures lent { StaysAt party.old party.new }
    ensures step { party_in V.bytes party.new ≡ (decide (setting_of V.width V.allows party.old.seat) party.old.seat.me (V.bytes value.now) (party_in V.bytes party.old)).after }
{
    if has_quorum(party, &Told { value: *value }) {
        party.own.decision = Some(*value);
    }
}

// A done is stored; then the two tests, in this order.
pub fn on_done<V: Value, W: Wire<V>>(party: &mut Party<V>, w: &mut W, m: &Message<V>) -> usize
    requires whole { (1 ≤ m.now.from) × (m.now.from ≤ party.old.seat.n) }
    requires taken { Takes V.valid V.width (W.capacity w.old) (W.waiting w.old) (on_done (setting_of V.width V.allows party.old.seat) party.old.seat.me (party_in V.bytes party.old) (message V.bytes m.now)).posts }
    ensures lent { StaysAt party.old party.new }
    ensures step { Does (on_done (setting_of V.width V.allows party.old.seat) party.old.seat.me (party_in V.bytes party.old) (message V.bytes m.now)) (party_in V.bytes party.new) (W.waiting w.old) (W.waiting w.new) (W.capacity w.old) (W.capacity w.new) result }
{
    note_done(party.rows, m.from, &m.value);
    let posts = follow_done(party, w, &m.value);
    try_decide(party, &m.value);
    posts
}
