// A whole shift: set-up, and then any list of calls.
ghost use Rattle.std.specs.Prelude.{◌≡◌, map, MatchResult};
ghost use Rattle.agreement.specs.Calls.{refused, set_up};
ghost use Rattle.tables.specs.Refusals.{refusal_number};
ghost use Rattle.tables.specs.Meaning.{ring_in};
ghost use Rattle.turns.specs.Meaning.{kind_of};
ghost use Rattle.setup.specs.Meaning.{plan_in, ring_cut, SamePlaces};
ghost use Rattle.shift.specs.Meaning.{call_of, Ran};

use crate::call::Call;
use crate::obeying::obey_all;
use setup::plan::Plan;
use setup::setup::set_up;
use tables::refusal::Refusal;
use tables::tables::Tables;
use values::value::Value;
use wires::wire::Wire;

// Runs a shift, and answers how many calls were refused; a refused call is passed over. Whatever the faulty parties
// send, of the whole shift and of each of its beginnings the three counts hold: one decided value, and it is allowed;
// nobody left undecided once the honest messages are through; nothing said twice.
// Where set-up is refused, nothing is touched.
pub fn run_shift<V: Value, W: Wire<V>>(
    plan: &Plan<V>,
    tables: &mut Tables<V>,
    wire: &mut W,
    calls: &[Call<V>],
) -> Result<usize, Refusal>
    ensures lent { SamePlaces tables.old tables.new }
    ensures run { MatchResult result
        (λ number. Ran (kind_of V.width V.valid V.allows) (plan_in V.bytes plan.now) (ring_cut V.bytes plan.now.n tables.old (W.waiting wire.old) (W.capacity wire.old)) (map (call_of V.bytes) calls.now) number (ring_in V.bytes tables.new (W.waiting wire.new) (W.capacity wire.new)))
        (λ e. ((set_up (kind_of V.width V.valid V.allows) (plan_in V.bytes plan.now) (ring_cut V.bytes plan.now.n tables.old (W.waiting wire.old) (W.capacity wire.old))).answer ≡ refused (refusal_number e)) × (tables.new.ring ≡ tables.old.ring) × (tables.new.records.now ≡ tables.old.records.now) × (tables.new.rows.now ≡ tables.old.rows.now) × (W.waiting wire.new ≡ W.waiting wire.old) × (W.capacity wire.new ≡ W.capacity wire.old)) }
{
    // not by ?: so the arm of a refusal is a place of its own, where an edit can turn it
    match set_up(plan, tables, wire) {
        Ok(_) => Ok(obey_all(tables, wire, calls)),
        Err(refusal) => Err(refusal),
    }
}
