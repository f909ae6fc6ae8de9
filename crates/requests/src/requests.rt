// A request: the sender gets what was made in the view that it asks for.
ghost use Rattle.std.specs.Prelude.{◌≡◌, ◌≤◌, ◌++◌};
ghost use Rattle.messages.specs.Meaning.{message};
ghost use Rattle.rules.specs.Posts.{made_offer, made_echo, made_vote, made, suggest_to};
ghost use Rattle.rules.specs.Step.{on_request};
ghost use Rattle.rows.specs.Meaning.{setting_of, record_of};
ghost use Rattle.rows.specs.Parties.{party_in, StaysAt};
ghost use Rattle.rows.specs.Votes.{field_number};
ghost use Rattle.requests.specs.Fields.{made_votes};
ghost use Rattle.posting.specs.Posting.{Takes, Posted, Does};

use fields::fields::field;
use messages::kind::Kind;
use messages::message::Message;
use notes::notes::note_request;
use posting::letters::{proof_letter, propose_letter, suggest_letter, vote_letter};
use posting::post::post_one;
use rows::party::Party;
use rows::record::Proposal;
use rows::vote::Field;
use tally::thresholds::primary_of;
use values::value::Value;
use wires::wire::Wire;

// Posts the suggest, where the receiver is the primary of the view. Apart from `suggest_primary` of crate views, which
// asks the rows: to share the making of the letter alone would be no plainer.
fn post_suggest<V: Value, W: Wire<V>>(party: &Party<V>, w: &mut W, to: u8) -> usize
    requires { Takes V.valid V.width (W.capacity w.old) (W.waiting w.old) (suggest_to (setting_of V.width V.allows party.now.seat) party.now.seat.me (record_of V.bytes party.now.own.now) to) }
    ensures { Posted (W.waiting w.old) (W.waiting w.new) (W.capacity w.old) (W.capacity w.new) result (suggest_to (setting_of V.width V.allows party.now.seat) party.now.seat.me (record_of V.bytes party.now.own.now) to) }
{
    let view = party.own.view;
    if to == primary_of::<V>(party.seat, view) {
        let m = suggest_letter(party.seat, view, &party.own.suggest, to);
        post_one(w, &m)
    } else {
        0
    }
}

// Posts the propose, where one was made.
fn post_offer<V: Value, W: Wire<V>>(party: &Party<V>, w: &mut W, to: u8) -> usize
    requires { Takes V.valid V.width (W.capacity w.old) (W.waiting w.old) (made_offer (setting_of V.width V.allows party.now.seat) party.now.seat.me party.now.own.now.view (record_of V.bytes party.now.own.now).offer to) }
    ensures { Posted (W.waiting w.old) (W.waiting w.new) (W.capacity w.old) (W.capacity w.new) result (made_offer (setting_of V.width V.allows party.now.seat) party.now.seat.me party.now.own.now.view (record_of V.bytes party.now.own.now).offer to) }
{
    match party.own.offer {
        Some(k) => {
            let m = propose_letter(party.seat, party.own.view, &k, to);
            post_one(w, &m)
        }
        None => 0,
    }
}

// Posts the echo, where one was made.
fn post_echo<V: Value, W: Wire<V>>(party: &Party<V>, w: &mut W, to: u8) -> usize
    requires { Takes V.valid V.width (W.capacity w.old) (W.waiting w.old) (made_echo (setting_of V.width V.allows party.now.seat) party.now.seat.me party.now.own.now.view (record_of V.bytes party.now.own.now).proposal to) }
    ensures { Posted (W.waiting w.old) (W.waiting w.new) (W.capacity w.old) (W.capacity w.new) result (made_echo (setting_of V.width V.allows party.now.seat) party.now.seat.me party.now.own.now.view (record_of V.bytes party.now.own.now).proposal to) }
{
    match party.own.proposal {
        Proposal::Echoed(v) => {
            let m = vote_letter(party.seat, Kind::Echo, party.own.view, &v, to);
            post_one(w, &m)
        }
        Proposal::Nothing | Proposal::Waiting(_) | Proposal::Dropped => 0,
    }
}

// Posts key1, key2, key3 or lock, where it was made in this view.
fn post_vote<V: Value, W: Wire<V>>(party: &Party<V>, w: &mut W, which: Field, to: u8) -> usize
    requires { Takes V.valid V.width (W.capacity w.old) (W.waiting w.old) (made_vote (setting_of V.width V.allows party.now.seat) party.now.seat.me (field_number which) (record_of V.bytes party.now.own.now) to) }
    ensures { Posted (W.waiting w.old) (W.waiting w.new) (W.capacity w.old) (W.capacity w.new) result (made_vote (setting_of V.width V.allows party.now.seat) party.now.seat.me (field_number which) (record_of V.bytes party.now.own.now) to) }
{
    let view = party.own.view;
    let k = field(party.own, which);
    if k.at == view {
        let m = vote_letter(party.seat, which.vote().kind(), view, &k.value, to);
        post_one(w, &m)
    } else {
        0
    }
}

// Posts key1, key2, key3 and lock, those that were made in this view.
fn post_votes<V: Value, W: Wire<V>>(party: &Party<V>, w: &mut W, to: u8) -> usize
    requires { Takes V.valid V.width (W.capacity w.old) (W.waiting w.old) (made_votes (setting_of V.width V.allows party.now.seat) party.now.seat.me (record_of V.bytes party.now.own.now) to) }
    ensures { Posted (W.waiting w.old) (W.waiting w.new) (W.capacity w.old) (W.capacity w.new) result (made_votes (setting_of V.width V.allows party.now.seat) party.now.seat.me (record_of V.bytes party.now.own.now) to) }
{
    // four calls in turn: each posts on the wire that the one before leaves
    let key1 = post_vote(party, w, Field::Key1, to);
    let key2 = post_vote(party, w, Field::Key2, to);
    let key3 = post_vote(party, w, Field::Key3, to);
    let lock = post_vote(party, w, Field::Lock, to);
    key1 + key2 + key3 + lock
}

// Posts the proof of the view and all that was made in it, by rising kind.
#[tactic(auto, unfolding(rules::specs::Posts::made))]
fn post_made<V: Value, W: Wire<V>>(party: &Party<V>, w: &mut W, to: u8) -> usize
    requires { Takes V.valid V.width (W.capacity w.old) (W.waiting w.old) (made (setting_of V.width V.allows party.now.seat) party.now.seat.me (record_of V.bytes party.now.own.now) to) }
    ensures { Posted (W.waiting w.old) (W.waiting w.new) (W.capacity w.old) (W.capacity w.new) result (made (setting_of V.width V.allows party.now.seat) party.now.seat.me (record_of V.bytes party.now.own.now) to) }
{
    let m = proof_letter(party.seat, party.own.view, &party.own.proof, to);
    let proofs = post_one(w, &m);
    let offers = post_offer(party, w, to);
    let echoes = post_echo(party, w, to);
    let votes = post_votes(party, w, to);
    proofs + offers + echoes + votes
}

// Posts the answer to a request for the party's view.
fn post_answer<V: Value, W: Wire<V>>(party: &Party<V>, w: &mut W, to: u8) -> usize
    requires { Takes V.valid V.width (W.capacity w.old) (W.waiting w.old) (suggest_to (setting_of V.width V.allows party.now.seat) party.now.seat.me (record_of V.bytes party.now.own.now) to ++ made (setting_of V.width V.allows party.now.seat) party.now.seat.me (record_of V.bytes party.now.own.now) to) }
    ensures { Posted (W.waiting w.old) (W.waiting w.new) (W.capacity w.old) (W.capacity w.new) result (suggest_to (setting_of V.width V.allows party.now.seat) party.now.seat.me (record_of V.bytes party.now.own.now) to ++ made (setting_of V.width V.allows party.now.seat) party.now.seat.me (record_of V.bytes party.now.own.now) to) }
{
    let suggests = post_suggest(party, w, to);
    let messages = post_made(party, w, to);
    suggests + messages
}

// Stores a request; one for the party's view is answered.
#[tactic(auto, unfolding(rules::specs::Step::on_request))]
pub fn on_request<V: Value, W: Wire<V>>(party: &mut Party<V>, w: &mut W, m: &Message<V>) -> usize
    requires whole { (1 ≤ m.now.from) × (m.now.from ≤ party.old.seat.n) }
    requires taken { Takes V.valid V.width (W.capacity w.old) (W.waiting w.old) (on_request (setting_of V.width V.allows party.old.seat) party.old.seat.me (party_in V.bytes party.old) (message V.bytes m.now)).posts }
    ensures lent { StaysAt party.old party.new }
    ensures own { party.new.own.now ≡ party.old.own.now }
    ensures step { Does (on_request (setting_of V.width V.allows party.old.seat) party.old.seat.me (party_in V.bytes party.old) (message V.bytes m.now)) (party_in V.bytes party.new) (W.waiting w.old) (W.waiting w.new) (W.capacity w.old) (W.capacity w.new) result }
{
    note_request(party.rows, m.from, m.view);
    if m.view == party.own.view {
        post_answer(party, w, m.from)
    } else {
        0
    }
}
