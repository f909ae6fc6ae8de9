// Send: a faulty party posts whatever message it likes, so long as every field is in range.
ghost use Rattle.std.specs.Prelude.{◌≡◌};
ghost use Rattle.messages.specs.Meaning.{message};
ghost use Rattle.agreement.specs.Calls.{Gives};
ghost use Rattle.agreement.specs.Runs.{call, send as sending};
ghost use Rattle.tables.specs.Meaning.{ring_of, answer_of};
ghost use Rattle.turns.specs.Meaning.{kind_of};

use messages::message::Message;
use rows::record::Record;
use rows::row::Row;
use tables::refusal::Refusal;
use tables::ring::Ring;
use tables::tables::tables_in_order;
use values::value::Value;
use wire_calls::sending::speak;
use wires::wire::Wire;

// Posts a message from a faulty party, and answers 1.
pub fn send<V: Value, W: Wire<V>>(
    ring: &Ring,
    records: &[Record<V>],
    rows: &[Row<V>],
    wire: &mut W,
    m: &Message<V>,
) -> Result<usize, Refusal>
    ensures { Gives (call (kind_of V.width V.valid V.allows) (ring_of V.bytes ring.now records.now rows.now (W.waiting wire.old) (W.capacity wire.old)) (sending (message V.bytes m.now))) (answer_of result) (ring_of V.bytes ring.now records.now rows.now (W.waiting wire.new) (W.capacity wire.new)) }
{
    if !tables_in_order(ring, records, rows) {
        return Err(Refusal::Tables);
    }
    speak(ring, wire, m)
}
