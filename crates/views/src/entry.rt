// Entering a view.
ghost use Rattle.rules.specs.Step.{enter as entering};
ghost use Rattle.rows.specs.Meaning.{setting_of};
ghost use Rattle.rows.specs.Parties.{party_in, StaysAt};
ghost use Rattle.views.specs.Parts.{suggest_asked, entry_posts};
ghost use Rattle.posting.specs.Posting.{Takes, Posted, Does};

use fields::fields::enter_view;
use messages::kind::Kind;
use notes::clear::clear_rows;
use notes::entries::row_from;
use posting::letters::suggest_letter;
use posting::post::post_one;
use posting::sends::{make_proof, send_view};
use rows::party::Party;
use tally::thresholds::primary_of;
use values::value::Value;
use wires::wire::Wire;

// Posts the suggest to the primary of the view, if its highest request equals the view.
fn suggest_primary<V: Value, W: Wire<V>>(party: &Party<V>, w: &mut W) -> usize
    requires { Takes V.valid V.width (W.capacity w.old) (W.waiting w.old) (suggest_asked (setting_of V.width V.allows party.now.seat) party.now.seat.me (party_in V.bytes party.now)) }
    ensures { Posted (W.waiting w.old) (W.waiting w.new) (W.capacity w.old) (W.capacity w.new) result (suggest_asked (setting_of V.width V.allows party.now.seat) party.now.seat.me (party_in V.bytes party.now)) }
{
    let view = party.own.view;
    let primary = primary_of::<V>(party.seat, view);
    if row_from(party.rows, primary).request == view {
        let m = suggest_letter(party.seat, view, &party.own.suggest, primary);
        post_one(w, &m)
    } else {
        0
    }
}

// Posts what goes with entering: the request to all, the suggest to the primary and the proof to those that joined.
fn post_entry<V: Value, W: Wire<V>>(party: &Party<V>, w: &mut W) -> usize
    requires { Takes V.valid V.width (W.capacity w.old) (W.waiting w.old) (entry_posts (setting_of V.width V.allows party.now.seat) party.now.seat.me (party_in V.bytes party.now)) }
    ensures { Posted (W.waiting w.old) (W.waiting w.new) (W.capacity w.old) (W.capacity w.new) result (entry_posts (setting_of V.width V.allows party.now.seat) party.now.seat.me (party_in V.bytes party.now)) }
{
    let requests = send_view(party, w, Kind::Request, party.own.view);
    let suggests = suggest_primary(party, w);
    let proofs = make_proof(party, w);
    requests + suggests + proofs
}

// Enters a view: the view's part of the rows is emptied and the contents of suggest and proof are fixed, before
// anything is posted.
pub fn enter<V: Value, W: Wire<V>>(party: &mut Party<V>, w: &mut W, view: u32) -> usize
    requires { Takes V.valid V.width (W.capacity w.old) (W.waiting w.old) (entering (setting_of V.width V.allows party.old.seat) party.old.seat.me (party_in V.bytes party.old) view).posts }
    ensures lent { StaysAt party.old party.new }
    ensures step { Does (entering (setting_of V.width V.allows party.old.seat) party.old.seat.me (party_in V.bytes party.old) view) (party_in V.bytes party.new) (W.waiting w.old) (W.waiting w.new) (W.capacity w.old) (W.capacity w.new) result }
{
    enter_view(party.own, view);
    clear_rows(party.rows);
    post_entry(party, w)
}
