// Timer: a party's view has lasted too long.
ghost use Rattle.std.specs.Prelude.{◌≡◌, OnErr};
ghost use Rattle.agreement.specs.Calls.{Gives};
ghost use Rattle.agreement.specs.Runs.{call, timer as timing};
ghost use Rattle.tables.specs.Meaning.{ring_in, SameTables, answer_of};
ghost use Rattle.turns.specs.Meaning.{kind_of};

use tables::refusal::Refusal;
use tables::tables::{Tables, tables_in_order};
use timeouts::timeouts::run_out;
use values::value::Value;
use wires::wire::Wire;

// The timer of a party. Answers how many messages that posts.
pub fn timer<V: Value, W: Wire<V>>(
    tables: &mut Tables<V>,
    wire: &mut W,
    party: u64,
) -> Result<usize, Refusal>
    ensures lent { SameTables tables.old tables.new }
    ensures gives { Gives (call (kind_of V.width V.valid V.allows) (ring_in V.bytes tables.old (W.waiting wire.old) (W.capacity wire.old)) (timing party)) (answer_of result) (ring_in V.bytes tables.new (W.waiting wire.new) (W.capacity wire.new)) }
    ensures untouched { OnErr result ((tables.new.records.now ≡ tables.old.records.now) × (tables.new.rows.now ≡ tables.old.rows.now)) }
{
    let seen = tables.shared();
    if !tables_in_order(&seen.ring, seen.records, seen.rows) {
        return Err(Refusal::Tables);
    }
    run_out(tables, wire, party)
}
