// The calls of a shift, one after the other.
ghost use Rattle.std.specs.Prelude.{◌≡◌, true, [], map};
ghost use Rattle.agreement.specs.Ring.{tables_fit};
ghost use Rattle.agreement.specs.Runs.{call as obeyed};
ghost use Rattle.tables.specs.Meaning.{ring_in, SameTables, answer_of};
ghost use Rattle.turns.specs.Meaning.{kind_of};
ghost use Rattle.shift.specs.Meaning.{call_of, briefly, refusals, end_of};

use crate::call::Call;
use handover::delivery::bring;
use ring::delivery::{hand, repeat};
use ring::lookup::{look_up, show};
use ring::losing::lose;
use ring::sending::send;
use ring::timing::timer;
use tables::refusal::Refusal;
use tables::tables::{Tables, tables_in_order};
use timeouts::timeouts::run_out;
use values::value::Value;
use wire_calls::losing::discard;
use wire_calls::sending::speak;
use wires::wire::Wire;

// What a call that posts nothing answers.
const NO_POSTS: usize = 0;

// Makes one call over tables that fit. What show tells is let go: it answers 0.
fn obey_fitting<V: Value, W: Wire<V>>(
    tables: &mut Tables<V>,
    wire: &mut W,
    call: &Call<V>,
) -> Result<usize, Refusal>
    requires { true ≡ tables_fit (ring_in V.bytes tables.old [] 0) }
    ensures lent { SameTables tables.old tables.new }
    ensures answer { answer_of result ≡ briefly (obeyed (kind_of V.width V.valid V.allows) (ring_in V.bytes tables.old (W.waiting wire.old) (W.capacity wire.old)) (call_of V.bytes call.now)).answer }
    ensures after { ring_in V.bytes tables.new (W.waiting wire.new) (W.capacity wire.new) ≡ (obeyed (kind_of V.width V.valid V.allows) (ring_in V.bytes tables.old (W.waiting wire.old) (W.capacity wire.old)) (call_of V.bytes call.now)).after }
    ensures fit { true ≡ tables_fit (ring_in V.bytes tables.new [] 0) }
{
    match call {
        Call::Hand(place) => bring(tables, wire, *place, false),
        Call::Repeat(place) => bring(tables, wire, *place, true),
        Call::Lose(place) => discard(wire, *place),
        Call::Send(m) => speak(&tables.ring, wire, m),
        Call::Timer(party) => run_out(tables, wire, *party),
        Call::Show(party) => {
            let seen = tables.shared();
            look_up(&seen.ring, seen.records, seen.rows, *party)?;
            Ok(NO_POSTS)
        }
    }
}

// Makes one call. A refusal has its own number; what show tells is let go, and it answers 0.
pub fn obey<V: Value, W: Wire<V>>(
    tables: &mut Tables<V>,
    wire: &mut W,
    call: &Call<V>,
) -> Result<usize, Refusal>
    ensures lent { SameTables tables.old tables.new }
    ensures answer { answer_of result ≡ briefly (obeyed (kind_of V.width V.valid V.allows) (ring_in V.bytes tables.old (W.waiting wire.old) (W.capacity wire.old)) (call_of V.bytes call.now)).answer }
    ensures after { ring_in V.bytes tables.new (W.waiting wire.new) (W.capacity wire.new) ≡ (obeyed (kind_of V.width V.valid V.allows) (ring_in V.bytes tables.old (W.waiting wire.old) (W.capacity wire.old)) (call_of V.bytes call.now)).after }
{
    match call {
        Call::Hand(place) => hand(tables, wire, *place),
        Call::Repeat(place) => repeat(tables, wire, *place),
        Call::Lose(place) => {
            let seen = tables.shared();
            lose(&seen.ring, seen.records, seen.rows, wire, *place)
        }
        Call::Send(m) => {
            let seen = tables.shared();
            send(&seen.ring, seen.records, seen.rows, wire, m)
        }
        Call::Timer(party) => timer(tables, wire, *party),
        Call::Show(party) => {
            let seen = tables.shared();
            show(&seen.ring, seen.records, seen.rows, *party)?;
            Ok(NO_POSTS)
        }
    }
}

// Makes all calls in order, and answers how many were refused. The tables are tested once:
// a call over tables that fit leaves them so, and over others each call is refused and changes nothing.
pub fn obey_all<V: Value, W: Wire<V>>(
    tables: &mut Tables<V>,
    wire: &mut W,
    calls: &[Call<V>],
) -> usize
    ensures lent { SameTables tables.old tables.new }
    ensures answer { result ≡ refusals (kind_of V.width V.valid V.allows) (ring_in V.bytes tables.old (W.waiting wire.old) (W.capacity wire.old)) (map (call_of V.bytes) calls.now) }
    ensures after { ring_in V.bytes tables.new (W.waiting wire.new) (W.capacity wire.new) ≡ end_of (kind_of V.width V.valid V.allows) (ring_in V.bytes tables.old (W.waiting wire.old) (W.capacity wire.old)) (map (call_of V.bytes) calls.now) }
{
    let seen = tables.shared();
    if !tables_in_order(&seen.ring, seen.records, seen.rows) {
        return calls.len();
    }
    // a loop, since each call changes the tables that the next one meets
    let mut refused = 0;
    for call in calls {
        if obey_fitting(tables, wire, call).is_err() {
            refused += 1;
        }
    }
    refused
}
