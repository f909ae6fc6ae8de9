// A faulty party posts whatever message it likes, so long as every field is in range.
ghost use Rattle.std.specs.Prelude.{◌≡◌, ℕ, IfOk};
ghost use Rattle.messages.specs.Meaning.{message};
ghost use Rattle.wires.specs.Wire.{post_answer, posted};
ghost use Rattle.rules.specs.Party.{Party};
ghost use Rattle.agreement.specs.Calls.{Gives};
ghost use Rattle.agreement.specs.Runs.{obey, send};
ghost use Rattle.tables.specs.Meaning.{ring_with, answer_of, result_of};
ghost use Rattle.turns.specs.Meaning.{kind_of};

use members::members::{has_both, standing};
use messages::message::Message;
use tables::liars::is_named;
use tables::refusal::Refusal;
use tables::ring::Ring;
use values::value::Value;
use wires::wire::Wire;

// Posts a message, and answers 1.
fn post<V: Value, W: Wire<V>>(wire: &mut W, m: &Message<V>) -> Result<usize, Refusal>
    ensures kept { W.capacity wire.new ≡ W.capacity wire.old }
    ensures value { result_of (λ _. tt) result ≡ post_answer V.valid V.width (W.capacity wire.old) (W.waiting wire.old) (message V.bytes m.now) }
    ensures one { IfOk result (λ posts. posts ≡ 1) }
    ensures after { W.waiting wire.new ≡ posted V.valid V.width (W.capacity wire.old) (W.waiting wire.old) (message V.bytes m.now) }
{
    wire.post(m)?;
    Ok(1)
}

// Posts a message from a faulty party, and answers 1. It is the same whatever the parties keep.
pub fn speak<V: Value, W: Wire<V>>(
    ring: &Ring,
    wire: &mut W,
    m: &Message<V>,
) -> Result<usize, Refusal>
    ensures { (parties : ℕ → Party) (records rows : ℕ) → Gives (obey (kind_of V.width V.valid V.allows) (ring_with ring.now parties records rows (W.waiting wire.old) (W.capacity wire.old)) (send (message V.bytes m.now))) (answer_of result) (ring_with ring.now parties records rows (W.waiting wire.new) (W.capacity wire.new)) }
{
    standing(has_both(ring, m), is_named(ring.faulty, m.from))?;
    post(wire, m)
}
