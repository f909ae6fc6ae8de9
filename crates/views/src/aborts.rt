// Giving up a view: aborts, and the timer.
ghost use Rattle.std.specs.Prelude.{◌≡◌, ◌≤◌};
ghost use Rattle.messages.specs.Meaning.{message};
ghost use Rattle.rules.specs.Step.{leave, on_abort, on_timer};
ghost use Rattle.rows.specs.Meaning.{setting_of, row_of, rows_of};
ghost use Rattle.rows.specs.Parties.{party_in, StaysAt};
ghost use Rattle.views.specs.Parts.{raised, given_up};
ghost use Rattle.posting.specs.Posting.{Takes, Does};

use crate::entry::enter;
use checks::aborts::{agreed_abort, vouched_abort};
use messages::kind::Kind;
use messages::message::Message;
use notes::entries::row_from;
use notes::notes::note_abort;
use posting::sends::send_view;
use rows::party::Party;
use rows::row::Row;
use values::value::Value;
use wires::wire::Wire;

// The row of a sender; from a party, since its rows are not lent out of it for a read beside it.
fn row_of_sender<V: Value>(party: &Party<V>, from: u8) -> Row<V>
    requires { (1 ≤ from) × (from ≤ party.now.seat.n) }
    ensures { row_of V.bytes result ≡ rows_of V.bytes party.now.rows.now from }
{
    row_from(party.rows, from)
}

// Sends abort of a view and raises the own entry to it, if that is below it.
fn raise_abort<V: Value, W: Wire<V>>(party: &mut Party<V>, w: &mut W, view: u32) -> usize
    requires { Takes V.valid V.width (W.capacity w.old) (W.waiting w.old) (raised (setting_of V.width V.allows party.old.seat) party.old.seat.me view (party_in V.bytes party.old)).posts }
    ensures lent { StaysAt party.old party.new }
    ensures step { Does (raised (setting_of V.width V.allows party.old.seat) party.old.seat.me view (party_in V.bytes party.old)) (party_in V.bytes party.new) (W.waiting w.old) (W.waiting w.new) (W.capacity w.old) (W.capacity w.new) result }
{
    let me = party.seat.me;
    if row_of_sender(party, me).abort < view {
        let posts = send_view(party, w, Kind::Abort, view);
        note_abort(party.rows, me, view);
        posts
    } else {
        0
    }
}

// Leaves the view once a quorum has given it up, for the view after the one that the quorum has reached.
#[tactic(auto, unfolding(rules::specs::Step::leave))]
fn leave_view<V: Value, W: Wire<V>>(party: &mut Party<V>, w: &mut W) -> usize
    requires { Takes V.valid V.width (W.capacity w.old) (W.waiting w.old) (leave (setting_of V.width V.allows party.old.seat) party.old.seat.me (party_in V.bytes party.old)).posts }
    ensures lent { StaysAt party.old party.new }
    ensures step { Does (leave (setting_of V.width V.allows party.old.seat) party.old.seat.me (party_in V.bytes party.old)) (party_in V.bytes party.new) (W.waiting w.old) (W.waiting w.new) (W.capacity w.old) (W.capacity w.new) result }
{
    let view = agreed_abort(party);
    if party.own.view <= view {
        enter(party, w, view + 1)
    } else {
        0
    }
}

// Gives up the views to this one, and leaves the own view if a quorum has given it up.
fn give_up<V: Value, W: Wire<V>>(party: &mut Party<V>, w: &mut W, view: u32) -> usize
    requires { Takes V.valid V.width (W.capacity w.old) (W.waiting w.old) (given_up (setting_of V.width V.allows party.old.seat) party.old.seat.me view (party_in V.bytes party.old)).posts }
    ensures lent { StaysAt party.old party.new }
    ensures step { Does (given_up (setting_of V.width V.allows party.old.seat) party.old.seat.me view (party_in V.bytes party.old)) (party_in V.bytes party.new) (W.waiting w.old) (W.waiting w.new) (W.capacity w.old) (W.capacity w.new) result }
{
    let aborts = raise_abort(party, w, view);
    let entries = leave_view(party, w);
    aborts + entries
}

// An abort raises the sender's entry; then the party follows what a voucher has reached.
pub fn on_abort<V: Value, W: Wire<V>>(party: &mut Party<V>, w: &mut W, m: &Message<V>) -> usize
    requires whole { (1 ≤ m.now.from) × (m.now.from ≤ party.old.seat.n) }
    requires taken { Takes V.valid V.width (W.capacity w.old) (W.waiting w.old) (on_abort (setting_of V.width V.allows party.old.seat) party.old.seat.me (party_in V.bytes party.old) (message V.bytes m.now)).posts }
    ensures lent { StaysAt party.old party.new }
    ensures step { Does (on_abort (setting_of V.width V.allows party.old.seat) party.old.seat.me (party_in V.bytes party.old) (message V.bytes m.now)) (party_in V.bytes party.new) (W.waiting w.old) (W.waiting w.new) (W.capacity w.old) (W.capacity w.new) result }
{
    let row = row_of_sender(party, m.from);
    note_abort(party.rows, m.from, row.abort.max(m.view));
    let vouched = vouched_abort(party);
    give_up(party, w, vouched)
}

// The timer gives the view up.
#[tactic(auto, unfolding(rules::specs::Step::on_timer, crate::specs::Parts::raised))]
pub fn on_time_out<V: Value, W: Wire<V>>(party: &mut Party<V>, w: &mut W) -> usize
    requires { Takes V.valid V.width (W.capacity w.old) (W.waiting w.old) (on_timer (setting_of V.width V.allows party.old.seat) party.old.seat.me (party_in V.bytes party.old)).posts }
    ensures lent { StaysAt party.old party.new }
    ensures step { Does (on_timer (setting_of V.width V.allows party.old.seat) party.old.seat.me (party_in V.bytes party.old)) (party_in V.bytes party.new) (W.waiting w.old) (W.waiting w.new) (W.capacity w.old) (W.capacity w.new) result }
{
    let view = party.own.view;
    give_up(party, w, view)
}
