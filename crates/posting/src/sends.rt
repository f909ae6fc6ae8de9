// What a party sends to all, and what it makes for those that have joined its view.
ghost use Rattle.std.specs.Prelude.{◌≡◌};
ghost use Rattle.messages.specs.Kinds.{kind_number};
ghost use Rattle.rules.specs.Posts.{view_msg, proof_msg, propose_msg, vote_msg, to_all, to_joined};
ghost use Rattle.rows.specs.Meaning.{setting_of, keyed_of, record_of};
ghost use Rattle.rows.specs.Parties.{party_in};
ghost use Rattle.rows.specs.Votes.{vote_number};
ghost use Rattle.posting.specs.Posting.{Takes, Posted};

use crate::audience::Audience;
use crate::letters::{proof_letter, propose_letter, view_letter, vote_letter};
use crate::post::post_each;
use messages::kind::Kind;
use rows::keys::Keyed;
use rows::party::Party;
use rows::vote::Vote;
use values::value::Value;
use wires::wire::Wire;

// Sends a request or an abort to all.
pub fn send_view<V: Value, W: Wire<V>>(party: &Party<V>, w: &mut W, kind: Kind, view: u32) -> usize
    requires { Takes V.valid V.width (W.capacity w.old) (W.waiting w.old) (to_all (setting_of V.width V.allows party.now.seat) party.now.seat.me (view_msg (setting_of V.width V.allows party.now.seat) party.now.seat.me (kind_number kind) view)) }
    ensures { Posted (W.waiting w.old) (W.waiting w.new) (W.capacity w.old) (W.capacity w.new) result (to_all (setting_of V.width V.allows party.now.seat) party.now.seat.me (view_msg (setting_of V.width V.allows party.now.seat) party.now.seat.me (kind_number kind) view)) }
{
    let m = view_letter(party.seat, kind, view, party.seat.me);
    post_each(party.seat, party.rows, w, Audience::All, &m)
}

// Sends done to all.
pub fn send_done<V: Value, W: Wire<V>>(party: &Party<V>, w: &mut W, value: &V) -> usize
    requires { Takes V.valid V.width (W.capacity w.old) (W.waiting w.old) (to_all (setting_of V.width V.allows party.now.seat) party.now.seat.me (vote_msg (setting_of V.width V.allows party.now.seat) party.now.seat.me 10 0 (V.bytes value.now))) }
    ensures { Posted (W.waiting w.old) (W.waiting w.new) (W.capacity w.old) (W.capacity w.new) result (to_all (setting_of V.width V.allows party.now.seat) party.now.seat.me (vote_msg (setting_of V.width V.allows party.now.seat) party.now.seat.me 10 0 (V.bytes value.now))) }
{
    let m = vote_letter(party.seat, Kind::Done, 0, value, party.seat.me);
    post_each(party.seat, party.rows, w, Audience::All, &m)
}

// Makes the proof of the view.
pub fn make_proof<V: Value, W: Wire<V>>(party: &Party<V>, w: &mut W) -> usize
    requires { Takes V.valid V.width (W.capacity w.old) (W.waiting w.old) (to_joined (setting_of V.width V.allows party.now.seat) party.now.seat.me (party_in V.bytes party.now) (proof_msg (setting_of V.width V.allows party.now.seat) party.now.seat.me party.now.own.now.view (record_of V.bytes party.now.own.now).proof)) }
    ensures { Posted (W.waiting w.old) (W.waiting w.new) (W.capacity w.old) (W.capacity w.new) result (to_joined (setting_of V.width V.allows party.now.seat) party.now.seat.me (party_in V.bytes party.now) (proof_msg (setting_of V.width V.allows party.now.seat) party.now.seat.me party.now.own.now.view (record_of V.bytes party.now.own.now).proof)) }
{
    let m = proof_letter(party.seat, party.own.view, &party.own.proof, party.seat.me);
    post_each(
        party.seat,
        party.rows,
        w,
        Audience::Joined(party.own.view),
        &m,
    )
}

// Makes a propose.
pub fn make_propose<V: Value, W: Wire<V>>(party: &Party<V>, w: &mut W, offer: &Keyed<V>) -> usize
    requires { Takes V.valid V.width (W.capacity w.old) (W.waiting w.old) (to_joined (setting_of V.width V.allows party.now.seat) party.now.seat.me (party_in V.bytes party.now) (propose_msg (setting_of V.width V.allows party.now.seat) party.now.seat.me party.now.own.now.view (keyed_of V.bytes offer.now))) }
    ensures { Posted (W.waiting w.old) (W.waiting w.new) (W.capacity w.old) (W.capacity w.new) result (to_joined (setting_of V.width V.allows party.now.seat) party.now.seat.me (party_in V.bytes party.now) (propose_msg (setting_of V.width V.allows party.now.seat) party.now.seat.me party.now.own.now.view (keyed_of V.bytes offer.now))) }
{
    let m = propose_letter(party.seat, party.own.view, offer, party.seat.me);
    post_each(
        party.seat,
        party.rows,
        w,
        Audience::Joined(party.own.view),
        &m,
    )
}

// Makes an echo, key1, key2, key3 or lock.
pub fn make_vote<V: Value, W: Wire<V>>(party: &Party<V>, w: &mut W, vote: Vote, value: &V) -> usize
    requires { Takes V.valid V.width (W.capacity w.old) (W.waiting w.old) (to_joined (setting_of V.width V.allows party.now.seat) party.now.seat.me (party_in V.bytes party.now) (vote_msg (setting_of V.width V.allows party.now.seat) party.now.seat.me (vote_number vote) party.now.own.now.view (V.bytes value.now))) }
    ensures { Posted (W.waiting w.old) (W.waiting w.new) (W.capacity w.old) (W.capacity w.new) result (to_joined (setting_of V.width V.allows party.now.seat) party.now.seat.me (party_in V.bytes party.now) (vote_msg (setting_of V.width V.allows party.now.seat) party.now.seat.me (vote_number vote) party.now.own.now.view (V.bytes value.now))) }
{
    let m = vote_letter(
        party.seat,
        vote.kind(),
        party.own.view,
        value,
        party.seat.me,
    );
    post_each(
        party.seat,
        party.rows,
        w,
        Audience::Joined(party.own.view),
        &m,
    )
}
