// Suggests: how a primary comes to its proposal.
ghost use Rattle.std.specs.Prelude.{◌≡◌, ◌≤◌};
ghost use Rattle.std.specs.Option.{option_map};
ghost use Rattle.messages.specs.Meaning.{message};
ghost use Rattle.rules.specs.Step.{propose, on_suggest};
ghost use Rattle.rows.specs.Meaning.{setting_of, suggest_of};
ghost use Rattle.rows.specs.Parties.{party_in, StaysAt};
ghost use Rattle.posting.specs.Posting.{Takes, Does};

use checks::suggests::{best_of, due_propose};
use messages::message::Message;
use notes::notes::note_suggest;
use posting::sends::make_propose;
use rows::keys::{Keyed, Suggest};
use rows::party::Party;
use values::value::Value;
use wires::wire::Wire;

// Makes propose with the key3 of the suggest to follow.
fn propose_from<V: Value, W: Wire<V>>(
    party: &mut Party<V>,
    w: &mut W,
    suggest: Option<Suggest<V>>,
) -> usize
    requires { Takes V.valid V.width (W.capacity w.old) (W.waiting w.old) (propose (setting_of V.width V.allows party.old.seat) party.old.seat.me (party_in V.bytes party.old) (option_map (suggest_of V.bytes) suggest)).posts }
    ensures lent { StaysAt party.old party.new }
    ensures step { Does (propose (setting_of V.width V.allows party.old.seat) party.old.seat.me (party_in V.bytes party.old) (option_map (suggest_of V.bytes) suggest)) (party_in V.bytes party.new) (W.waiting w.old) (W.waiting w.new) (W.capacity w.old) (W.capacity w.new) result }
{
    match suggest {
        Some(s) => {
            let posts = make_propose(party, w, &s.key3);
            party.own.offer = Some(s.key3);
            posts
        }
        None => 0,
    }
}

// A suggest is stored; once a quorum of suggests is accepted, propose is made.
pub fn on_suggest<V: Value, W: Wire<V>>(party: &mut Party<V>, w: &mut W, m: &Message<V>) -> usize
    requires whole { (1 ≤ m.now.from) × (m.now.from ≤ party.old.seat.n) }
    requires taken { Takes V.valid V.width (W.capacity w.old) (W.waiting w.old) (on_suggest (setting_of V.width V.allows party.old.seat) party.old.seat.me (party_in V.bytes party.old) (message V.bytes m.now)).posts }
    ensures lent { StaysAt party.old party.new }
    ensures step { Does (on_suggest (setting_of V.width V.allows party.old.seat) party.old.seat.me (party_in V.bytes party.old) (message V.bytes m.now)) (party_in V.bytes party.new) (W.waiting w.old) (W.waiting w.new) (W.capacity w.old) (W.capacity w.new) result }
{
    // made where it is stored, and nowhere else
    let suggest = Suggest {
        key3: Keyed {
            at: m.key,
            value: m.value,
        },
        key2: Keyed {
            at: m.second_key,
            value: m.second_value,
        },
        previous: m.previous,
    };
    note_suggest(party.rows, m.from, &suggest);
    if due_propose(party) {
        let best = best_of(party);
        propose_from(party, w, best)
    } else {
        0
    }
}
