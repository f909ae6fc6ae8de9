// One step of a party: a message, or its timer.
ghost use Rattle.std.specs.Prelude.{◌≡◌, ◌+◌, ◌<◌, ◌≤◌, true, length};
ghost use Rattle.messages.specs.Messages.{last_view};
ghost use Rattle.messages.specs.Meaning.{message};
ghost use Rattle.rules.specs.Bounds.{party_fits};
ghost use Rattle.rules.specs.Facts.{Proper, most_posts};
ghost use Rattle.rules.specs.Party.{nothing, and_then};
ghost use Rattle.rules.specs.Step.{react, step as stepped, on_vote, wake, on_timer};
ghost use Rattle.rows.specs.Meaning.{setting_of, proposal_of};
ghost use Rattle.rows.specs.Parties.{party_in, StaysAt};
ghost use Rattle.posting.specs.Posting.{Takes, Does};

use heed::heed::heeds;
use messages::message::Message;
use proposing::proposals::{on_proof, on_propose, wake_proposal};
use proposing::suggests::on_suggest;
use requests::requests::on_request;
use rows::party::Party;
use rows::vote::Field;
use values::value::Value;
use views::aborts::{on_abort, on_time_out};
use voting::dones::{on_done, on_lock};
use voting::votes::on_vote;
use wires::wire::Wire;

// A key3 is a vote, and may free a waiting proposal.
fn on_key3<V: Value, W: Wire<V>>(party: &mut Party<V>, w: &mut W, m: &Message<V>) -> usize
    requires whole { (1 ≤ m.now.from) × (m.now.from ≤ party.old.seat.n) × (m.now.kind ≡ 8) }
    requires taken { Takes V.valid V.width (W.capacity w.old) (W.waiting w.old) (and_then (on_vote (setting_of V.width V.allows party.old.seat) party.old.seat.me (party_in V.bytes party.old) (message V.bytes m.now)) (wake (setting_of V.width V.allows party.old.seat) party.old.seat.me)).posts }
    ensures lent { StaysAt party.old party.new }
    ensures step { Does (and_then (on_vote (setting_of V.width V.allows party.old.seat) party.old.seat.me (party_in V.bytes party.old) (message V.bytes m.now)) (wake (setting_of V.width V.allows party.old.seat) party.old.seat.me)) (party_in V.bytes party.new) (W.waiting w.old) (W.waiting w.new) (W.capacity w.old) (W.capacity w.new) result }
{
    let votes = on_vote(party, w, Field::Lock, m);
    let echoes = wake_proposal(party, w, m);
    votes + echoes
}

// What a message that is taken in does, by its kind.
fn by_kind<V: Value, W: Wire<V>>(party: &mut Party<V>, w: &mut W, m: &Message<V>) -> usize
    requires whole { (1 ≤ m.now.from) × (m.now.from ≤ party.old.seat.n) × (1 ≤ m.now.kind) × (m.now.kind ≤ 11) × (m.now.kind ≡ 4 → proposal_of V.bytes party.old.own.now.proposal ≡ nothing) }
    requires taken { Takes V.valid V.width (W.capacity w.old) (W.waiting w.old) (react (setting_of V.width V.allows party.old.seat) party.old.seat.me (party_in V.bytes party.old) (message V.bytes m.now)).posts }
    ensures lent { StaysAt party.old party.new }
    ensures step { Does (react (setting_of V.width V.allows party.old.seat) party.old.seat.me (party_in V.bytes party.old) (message V.bytes m.now)) (party_in V.bytes party.new) (W.waiting w.old) (W.waiting w.new) (W.capacity w.old) (W.capacity w.new) result }
{
    match m.kind {
        1 => on_request(party, w, m),
        2 => on_suggest(party, w, m),
        3 => on_proof(party, w, m),
        4 => on_propose(party, w, m),
        5 => on_vote(party, w, Field::Key1, m),
        6 => on_vote(party, w, Field::Key2, m),
        7 => on_vote(party, w, Field::Key3, m),
        8 => on_key3(party, w, m),
        9 => on_lock(party, w, m),
        10 => on_done(party, w, m),
        _ => on_abort(party, w, m),
    }
}

// Takes a message in, or ignores it, on a wire that takes what it posts.
#[tactic(auto, unfolding(rules::specs::Step::step))]
fn take_in<V: Value, W: Wire<V>>(party: &mut Party<V>, w: &mut W, m: &Message<V>) -> usize
    requires whole { (1 ≤ m.now.from) × (m.now.from ≤ party.old.seat.n) × (1 ≤ m.now.kind) × (m.now.kind ≤ 11) }
    requires taken { Takes V.valid V.width (W.capacity w.old) (W.waiting w.old) (stepped (setting_of V.width V.allows party.old.seat) party.old.seat.me (party_in V.bytes party.old) (message V.bytes m.now)).posts }
    ensures lent { StaysAt party.old party.new }
    ensures step { Does (stepped (setting_of V.width V.allows party.old.seat) party.old.seat.me (party_in V.bytes party.old) (message V.bytes m.now)) (party_in V.bytes party.new) (W.waiting w.old) (W.waiting w.new) (W.capacity w.old) (W.capacity w.new) result }
{
    if heeds(party, m) {
        by_kind(party, w, m)
    } else {
        0
    }
}

// One step with a message: the party and the wire are as the rules say, and what the party keeps stays within its
// bounds. The answer is the number of posts.
pub fn step<V: Value, W: Wire<V>>(party: &mut Party<V>, w: &mut W, m: &Message<V>) -> usize
    requires fits { party_fits party.old.seat.n (party_in V.bytes party.old) ≡ true }
    requires proper { Proper V.valid (setting_of V.width V.allows party.old.seat) (message V.bytes m.now) }
    requires room { length (W.waiting w.old) + most_posts party.old.seat.n ≤ W.capacity w.old }
    ensures lent { StaysAt party.old party.new }
    ensures step { Does (stepped (setting_of V.width V.allows party.old.seat) party.old.seat.me (party_in V.bytes party.old) (message V.bytes m.now)) (party_in V.bytes party.new) (W.waiting w.old) (W.waiting w.new) (W.capacity w.old) (W.capacity w.new) result }
    ensures fits { party_fits party.old.seat.n (party_in V.bytes party.new) ≡ true }
{
    take_in(party, w, m)
}

// One step of the timer, in any view but the last.
pub fn timer<V: Value, W: Wire<V>>(party: &mut Party<V>, w: &mut W) -> usize
    requires fits { party_fits party.old.seat.n (party_in V.bytes party.old) ≡ true }
    requires early { party.old.own.now.view < last_view }
    requires room { length (W.waiting w.old) + most_posts party.old.seat.n ≤ W.capacity w.old }
    ensures lent { StaysAt party.old party.new }
    ensures step { Does (on_timer (setting_of V.width V.allows party.old.seat) party.old.seat.me (party_in V.bytes party.old)) (party_in V.bytes party.new) (W.waiting w.old) (W.waiting w.new) (W.capacity w.old) (W.capacity w.new) result }
    ensures fits { party_fits party.old.seat.n (party_in V.bytes party.new) ≡ true }
{
    on_time_out(party, w)
}
