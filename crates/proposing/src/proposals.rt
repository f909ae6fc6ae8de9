// The proposal of a view: propose, and the proofs and keys that a waiting one waits for.
ghost use Rattle.std.specs.Prelude.{◌≡◌, ◌≤◌, true, ◌&&◌, ◌||◌, ◌==◌};
ghost use Rattle.messages.specs.Meaning.{message};
ghost use Rattle.rules.specs.Party.{nothing};
ghost use Rattle.rules.specs.Tests.{lock_opened};
ghost use Rattle.rules.specs.Step.{lock_fits, may_wait, on_propose, on_proof, wake};
ghost use Rattle.rows.specs.Meaning.{setting_of, record_of, proposal_of};
ghost use Rattle.rows.specs.Parties.{party_in, StaysAt};
ghost use Rattle.proposing.specs.Proposals.{next_state, next_of, is_settled, is_held, take_up, settled};
ghost use Rattle.posting.specs.Posting.{Takes, Does};

use checks::lock::{fits_lock, opened};
use messages::message::Message;
use notes::notes::note_proof;
use posting::sends::make_vote;
use rows::keys::{Keyed, Proof};
use rows::party::Party;
use rows::record::{Proposal, Record};
use rows::vote::Vote;
use values::value::Value;
use wires::wire::Wire;

// The state and the arriving kind, matched together, give the next state.
fn next_proposal<V: Value>(
    state: Proposal<V>,
    kind: u8,
    value: V,
    fits: bool,
    waits: bool,
    freed: bool,
) -> Proposal<V>
    ensures { proposal_of V.bytes result ≡ next_state (proposal_of V.bytes state) kind (V.bytes value) fits waits freed }
{
    match (state, kind) {
        (Proposal::Nothing, 4) if fits => Proposal::Echoed(value),
        (Proposal::Nothing, 4) if waits && freed => Proposal::Echoed(value),
        (Proposal::Nothing, 4) if waits => Proposal::Waiting(value),
        (Proposal::Nothing, 4) => Proposal::Dropped,
        (Proposal::Waiting(v), 3 | 8) if freed => Proposal::Echoed(v),
        (state, _) => state,
    }
}

// Whether the proposal is echoed or dropped.
fn settled_already<V: Value>(own: &Record<V>) -> bool
    ensures { result ≡ is_settled (record_of V.bytes own.now).proposal }
{
    matches!(own.proposal, Proposal::Echoed(_) | Proposal::Dropped)
}

// Whether the proposal waits and is for the value of the lock.
fn held_by_lock<V: Value>(own: &Record<V>) -> bool
    ensures { result ≡ is_held ((record_of V.bytes own.now).field 9).value (record_of V.bytes own.now).proposal }
{
    matches!(&own.proposal, Proposal::Waiting(v) if own.lock.value.same(v))
}

// Whether a proposal may be echoed at once: it is allowed, and there is no lock or it is the lock's value.
fn echoes_now<V: Value>(party: &Party<V>, value: &V) -> bool
    ensures { result ≡ (V.allows (V.bytes value.now) && lock_fits (setting_of V.width V.allows party.now.seat) party.now.seat.me (record_of V.bytes party.now.own.now) (V.bytes value.now)) }
{
    value.allowed() && fits_lock(party, value)
}

// Whether a proposal may wait: it is allowed, and its key is at least as new as the lock and below the view.
fn waits_now<V: Value>(party: &Party<V>, value: &V, key: u32) -> bool
    ensures { result ≡ (V.allows (V.bytes value.now) && may_wait (setting_of V.width V.allows party.now.seat) party.now.seat.me (record_of V.bytes party.now.own.now) key) }
{
    value.allowed() && party.own.lock.at <= key && key < party.own.view
}

// Whether a waiting proposal is freed: the lock is on its value, or a voucher of proofs opens the lock.
fn freed_now<V: Value>(party: &Party<V>) -> bool
    ensures { result ≡ (is_held ((record_of V.bytes party.now.own.now).field 9).value (record_of V.bytes party.now.own.now).proposal || lock_opened (setting_of V.width V.allows party.now.seat) (party_in V.bytes party.now)) }
{
    held_by_lock(party.own) || opened(party)
}

// What becomes of the proposal with this message.
fn after_message<V: Value>(party: &Party<V>, m: &Message<V>) -> Proposal<V>
    ensures { proposal_of V.bytes result ≡ next_of (setting_of V.width V.allows party.now.seat) party.now.seat.me (party_in V.bytes party.now) (message V.bytes m.now) }
{
    let echoes = echoes_now(party, &m.value);
    let waits = waits_now(party, &m.value, m.key);
    let freed = freed_now(party);
    next_proposal(party.own.proposal, m.kind, m.value, echoes, waits, freed)
}

// Writes the state, and makes the echo that comes with it.
fn take_state<V: Value, W: Wire<V>>(party: &mut Party<V>, w: &mut W, state: Proposal<V>) -> usize
    requires { Takes V.valid V.width (W.capacity w.old) (W.waiting w.old) (take_up (setting_of V.width V.allows party.old.seat) party.old.seat.me (party_in V.bytes party.old) (proposal_of V.bytes state)).posts }
    ensures lent { StaysAt party.old party.new }
    ensures rows { party.new.rows.now ≡ party.old.rows.now }
    ensures step { Does (take_up (setting_of V.width V.allows party.old.seat) party.old.seat.me (party_in V.bytes party.old) (proposal_of V.bytes state)) (party_in V.bytes party.new) (W.waiting w.old) (W.waiting w.new) (W.capacity w.old) (W.capacity w.new) result }
{
    let posts = match &state {
        Proposal::Echoed(v) => make_vote(party, w, Vote::Echo, v),
        Proposal::Nothing | Proposal::Waiting(_) | Proposal::Dropped => 0,
    };
    party.own.proposal = state;
    posts
}

// The proposal after a propose, a proof or a key3.
fn settle<V: Value, W: Wire<V>>(party: &mut Party<V>, w: &mut W, m: &Message<V>) -> usize
    requires { Takes V.valid V.width (W.capacity w.old) (W.waiting w.old) (settled (setting_of V.width V.allows party.old.seat) party.old.seat.me (party_in V.bytes party.old) (message V.bytes m.now)).posts }
    ensures lent { StaysAt party.old party.new }
    ensures rows { party.new.rows.now ≡ party.old.rows.now }
    ensures step { Does (settled (setting_of V.width V.allows party.old.seat) party.old.seat.me (party_in V.bytes party.old) (message V.bytes m.now)) (party_in V.bytes party.new) (W.waiting w.old) (W.waiting w.new) (W.capacity w.old) (W.capacity w.new) result }
{
    if settled_already(party.own) {
        0
    } else {
        let state = after_message(party, m);
        take_state(party, w, state)
    }
}

// A propose, the first of the view. It and the next have one body and two names, since each promises another rule.
pub fn on_propose<V: Value, W: Wire<V>>(
    party: &mut Party<V>,
    w: &mut W,
    propose: &Message<V>,
) -> usize
    requires whole { (propose.now.kind ≡ 4) × (proposal_of V.bytes party.old.own.now.proposal ≡ nothing) }
    requires taken { Takes V.valid V.width (W.capacity w.old) (W.waiting w.old) (on_propose (setting_of V.width V.allows party.old.seat) party.old.seat.me (party_in V.bytes party.old) (message V.bytes propose.now)).posts }
    ensures lent { StaysAt party.old party.new }
    ensures rows { party.new.rows.now ≡ party.old.rows.now }
    ensures step { Does (on_propose (setting_of V.width V.allows party.old.seat) party.old.seat.me (party_in V.bytes party.old) (message V.bytes propose.now)) (party_in V.bytes party.new) (W.waiting w.old) (W.waiting w.new) (W.capacity w.old) (W.capacity w.new) result }
{
    settle(party, w, propose)
}

// A waiting proposal is tested after a proof (3) and after a key3 (8).
pub fn wake_proposal<V: Value, W: Wire<V>>(
    party: &mut Party<V>,
    w: &mut W,
    cause: &Message<V>,
) -> usize
    requires whole { (cause.now.kind == 3 || cause.now.kind == 8) ≡ true }
    requires taken { Takes V.valid V.width (W.capacity w.old) (W.waiting w.old) (wake (setting_of V.width V.allows party.old.seat) party.old.seat.me (party_in V.bytes party.old)).posts }
    ensures lent { StaysAt party.old party.new }
    ensures rows { party.new.rows.now ≡ party.old.rows.now }
    ensures step { Does (wake (setting_of V.width V.allows party.old.seat) party.old.seat.me (party_in V.bytes party.old)) (party_in V.bytes party.new) (W.waiting w.old) (W.waiting w.new) (W.capacity w.old) (W.capacity w.new) result }
{
    settle(party, w, cause)
}

// A proof is stored; it may free a waiting proposal.
pub fn on_proof<V: Value, W: Wire<V>>(party: &mut Party<V>, w: &mut W, m: &Message<V>) -> usize
    requires whole { (1 ≤ m.now.from) × (m.now.from ≤ party.old.seat.n) × (m.now.kind ≡ 3) }
    requires taken { Takes V.valid V.width (W.capacity w.old) (W.waiting w.old) (on_proof (setting_of V.width V.allows party.old.seat) party.old.seat.me (party_in V.bytes party.old) (message V.bytes m.now)).posts }
    ensures lent { StaysAt party.old party.new }
    ensures step { Does (on_proof (setting_of V.width V.allows party.old.seat) party.old.seat.me (party_in V.bytes party.old) (message V.bytes m.now)) (party_in V.bytes party.new) (W.waiting w.old) (W.waiting w.new) (W.capacity w.old) (W.capacity w.new) result }
{
    // made where it is stored, and nowhere else
    let proof = Proof {
        key1: Keyed {
            at: m.key,
            value: m.value,
        },
        previous: m.previous,
    };
    note_proof(party.rows, m.from, &proof);
    wake_proposal(party, w, m)
}
