// Lose: a message is taken out, and nobody gets it.
ghost use Rattle.std.specs.Prelude.{◌≡◌};
ghost use Rattle.agreement.specs.Calls.{Gives};
ghost use Rattle.agreement.specs.Runs.{call, lose as losing};
ghost use Rattle.tables.specs.Meaning.{ring_of, answer_of};
ghost use Rattle.turns.specs.Meaning.{kind_of};

use rows::record::Record;
use rows::row::Row;
use tables::refusal::Refusal;
use tables::ring::Ring;
use tables::tables::tables_in_order;
use values::value::Value;
use wire_calls::losing::discard;
use wires::wire::Wire;

// Takes out the message at a place, and answers 0.
pub fn lose<V: Value, W: Wire<V>>(
    ring: &Ring,
    records: &[Record<V>],
    rows: &[Row<V>],
    wire: &mut W,
    place: usize,
) -> Result<usize, Refusal>
    ensures { Gives (call (kind_of V.width V.valid V.allows) (ring_of V.bytes ring.now records.now rows.now (W.waiting wire.old) (W.capacity wire.old)) (losing place)) (answer_of result) (ring_of V.bytes ring.now records.now rows.now (W.waiting wire.new) (W.capacity wire.new)) }
{
    if !tables_in_order(ring, records, rows) {
        return Err(Refusal::Tables);
    }
    discard(wire, place)
}
