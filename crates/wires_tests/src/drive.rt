use messages::kind::Kind;
use messages::message::Message;
use std::process::Abort;
use values::value::Value;
use wires::wire::Wire;

// One call: a post of a view, a look or a taking out at a place, and what needs neither.
#[derive(Clone, Copy)]
pub enum Call {
    Post(u32),
    Look(usize),
    TakeOut(usize),
    Count,
    Room,
}

// An echo of a view.
fn echo<V: Value>(view: u32, value: &V) -> Message<V> {
    Message {
        view,
        value: *value,
        ..Message::empty(Kind::Echo, 1, 2)
    }
}

// Makes one call. A message is answered by its view, a post that is accepted by 0, a refusal by
// 1,000 more than its number.
fn make<V: Value, W: Wire<V>>(w: &mut W, call: Call, value: &V) -> usize {
    let answer = match call {
        Call::Post(view) => w.post(&echo(view, value)).map(|_| 0),
        Call::Look(at) => w.look(at).map(|m| m.view as usize),
        Call::TakeOut(at) => w.take_out(at).map(|m| m.view as usize),
        Call::Count => Ok(w.count()),
        Call::Room => Ok(w.room()),
    };
    answer.unwrap_or_else(|fault| 1_000 + fault.number() as usize)
}

// Makes the calls one after the other, and holds each answer to the one that is written.
pub fn run<V: Value, W: Wire<V>>(rt: &impl Abort, w: &mut W, steps: &[(Call, usize)], value: &V) {
    for (call, answer) in steps {
        assert_eq!(rt; make(w, *call, value), *answer);
    }
}

// The call that a number picks, at a place or with a view.
fn picked(n: u32, at: u32) -> Call {
    match n % 8 {
        0..=3 => Call::Post(at),
        4 | 5 => Call::TakeOut(at as usize),
        6 => Call::Look(at as usize),
        _ => Call::Room,
    }
}

// Makes many calls, picked by chance from a seed, on two wires: both answer the same. Every
// call takes a place below 6 or a view below 6, so that some are refused.
pub fn alike<V: Value, A: Wire<V>, B: Wire<V>>(rt: &impl Abort, a: &mut A, b: &mut B, value: &V) {
    let mut seed: u32 = 20_261_117;
    for _ in 0..2_000 {
        seed = seed.wrapping_mul(1_664_525).wrapping_add(1_013_904_223);
        let call = picked(seed / 65_536, seed / 1_048_576 % 6);
        assert_eq!(rt; make(a, call, value), make(b, call, value));
    }
}
