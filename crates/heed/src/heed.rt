// Which messages a party takes in.
// A message at hand carries the number of its kind, and the rules give kinds by ranges: so the tests match on numbers.
ghost use Rattle.std.specs.Prelude.{◌≡◌, ◌≤◌};
ghost use Rattle.messages.specs.Meaning.{message};
ghost use Rattle.rules.specs.Tests.{is_nothing, heeded};
ghost use Rattle.rules.specs.Party.{Setting, none};
ghost use Rattle.rows.specs.Meaning.{setting_of, row_of, record_of, proposal_of};
ghost use Rattle.rows.specs.Parties.{party_in};
ghost use Rattle.heed.specs.Heed.{first_by, led_by, taken_in};

use messages::message::Message;
use notes::entries::row_from;
use rows::party::Party;
use rows::record::{Proposal, Record};
use rows::row::Row;
use tally::thresholds::primary_of;
use values::value::Value;

// Whether the party has not decided.
fn is_open<V: Value>(own: &Record<V>) -> bool
    ensures { result ≡ none (record_of V.bytes own.now).decision }
{
    own.decision.is_none()
}

// Whether there is no proposal yet in this view.
fn no_proposal<V: Value>(own: &Record<V>) -> bool
    ensures { (g : Setting) → result ≡ is_nothing g (proposal_of V.bytes own.now.proposal) }
{
    matches!(&own.proposal, Proposal::Nothing)
}

// Whether the sender has not voted by this kind in this view: 5 echo, 6 key1, 7 key2, 8 key3, 9 lock.
fn no_vote<V: Value>(row: &Row<V>, kind: u8) -> bool
    ensures { result ≡ none ((row_of V.bytes row.now).vote kind) }
{
    match kind {
        5 => row.echo.is_none(),
        6 => row.key1.is_none(),
        7 => row.key2.is_none(),
        8 => row.key3.is_none(),
        9 => row.lock.is_none(),
        _ => true,
    }
}

// Whether a message of this kind is the first of its sender, in the view or, for a done, in the shift.
fn is_first<V: Value>(own: &Record<V>, row: &Row<V>, kind: u8) -> bool
    ensures { (g : Setting) → result ≡ first_by g (proposal_of V.bytes own.now.proposal) (row_of V.bytes row.now) kind }
{
    match kind {
        2 => row.suggest.is_none(),
        3 => row.proof.is_none(),
        4 => no_proposal(own),
        10 => row.done.is_none(),
        _ => no_vote(row, kind),
    }
}

// Whether a suggest is at the primary, or a propose from it.
fn is_led(me: u8, primary: u8, from: u8, kind: u8) -> bool
    ensures { result ≡ led_by me primary from kind }
{
    match kind {
        2 => me == primary,
        4 => from == primary,
        _ => true,
    }
}

// What is ignored: all once decided, an old request, another view's message of kinds 2 to 9, a suggest or propose
// that is not the primary's, and a second of its kind.
fn takes_in(kind: u8, vacant: bool, asked: bool, here: bool, led: bool, first: bool) -> bool
    ensures { result ≡ taken_in kind vacant asked here led first }
{
    match kind {
        _ if !vacant => false,
        1 => asked,
        2..=9 if !here => false,
        2..=9 if !led => false,
        2..=10 => first,
        11 => true,
        _ => false,
    }
}

// Whether a party takes a message in.
pub fn heeds<V: Value>(party: &Party<V>, m: &Message<V>) -> bool
    requires { (1 ≤ m.now.from) × (m.now.from ≤ party.now.seat.n) }
    ensures { result ≡ heeded (setting_of V.width V.allows party.now.seat) party.now.seat.me (party_in V.bytes party.now) (message V.bytes m.now) }
{
    let row = row_from(party.rows, m.from);
    let primary = primary_of::<V>(party.seat, party.own.view);
    takes_in(
        m.kind,
        is_open(party.own),
        row.request < m.view,
        m.view == party.own.view,
        is_led(party.seat.me, primary, m.from, m.kind),
        is_first(party.own, &row, m.kind),
    )
}
