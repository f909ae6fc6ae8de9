// Votes: echo, key1, key2 and key3, each with the field that it moves.
ghost use Rattle.std.specs.Prelude.{◌≡◌, ◌+◌, ◌-◌, ◌≤◌};
ghost use Rattle.messages.specs.Meaning.{message};
ghost use Rattle.rules.specs.Step.{announce_due as due, announce as announced, on_vote};
ghost use Rattle.rows.specs.Meaning.{setting_of};
ghost use Rattle.rows.specs.Votes.{field_number};
ghost use Rattle.rows.specs.Parties.{party_in, StaysAt};
ghost use Rattle.posting.specs.Posting.{Takes, Does};

use claims::votes::Votes;
use fields::fields::{field, move_field};
use messages::message::Message;
use notes::notes::note_vote;
use posting::sends::make_vote;
use rows::party::Party;
use rows::vote::Field;
use tally::thresholds::has_quorum;
use values::value::Value;
use wires::wire::Wire;

// Whether a quorum has cast the vote for the value that moves the field, and it is not yet of this view.
fn announce_due<V: Value>(party: &Party<V>, which: Field, value: &V) -> bool
    ensures { result ≡ due (setting_of V.width V.allows party.now.seat) party.now.seat.me (party_in V.bytes party.now) (field_number which - 1) (V.bytes value.now) }
{
    let claim = Votes {
        vote: which.cause(),
        value: *value,
    };
    has_quorum(party, &claim) && field(party.own, which).at < party.own.view
}

// Moves the field to the view with this value, and makes its message.
fn announce<V: Value, W: Wire<V>>(party: &mut Party<V>, w: &mut W, which: Field, value: &V) -> usize
    requires { Takes V.valid V.width (W.capacity w.old) (W.waiting w.old) (announced (setting_of V.width V.allows party.old.seat) party.old.seat.me (party_in V.bytes party.old) (field_number which) (V.bytes value.now)).posts }
    ensures lent { StaysAt party.old party.new }
    ensures step { Does (announced (setting_of V.width V.allows party.old.seat) party.old.seat.me (party_in V.bytes party.old) (field_number which) (V.bytes value.now)) (party_in V.bytes party.new) (W.waiting w.old) (W.waiting w.new) (W.capacity w.old) (W.capacity w.new) result }
{
    let posts = make_vote(party, w, which.vote(), value);
    move_field(party.own, which, value);
    posts
}

// A vote is stored; with a quorum for its value the field that it moves comes to the view, once.
pub fn on_vote<V: Value, W: Wire<V>>(
    party: &mut Party<V>,
    w: &mut W,
    field: Field,
    m: &Message<V>,
) -> usize
    requires whole { (1 ≤ m.now.from) × (m.now.from ≤ party.old.seat.n) × (m.now.kind + 1 ≡ field_number field) }
    requires taken { Takes V.valid V.width (W.capacity w.old) (W.waiting w.old) (on_vote (setting_of V.width V.allows party.old.seat) party.old.seat.me (party_in V.bytes party.old) (message V.bytes m.now)).posts }
    ensures lent { StaysAt party.old party.new }
    ensures step { Does (on_vote (setting_of V.width V.allows party.old.seat) party.old.seat.me (party_in V.bytes party.old) (message V.bytes m.now)) (party_in V.bytes party.new) (W.waiting w.old) (W.waiting w.new) (W.capacity w.old) (W.capacity w.new) result }
{
    note_vote(party.rows, m.from, field.cause(), &m.value);
    if announce_due(party, field, &m.value) {
        announce(party, w, field, &m.value)
    } else {
        0
    }
}
