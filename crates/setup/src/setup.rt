// Set-up: a ring is planned, and every honest party enters view 1.
ghost use Rattle.std.specs.Prelude.{◌≡◌, MatchResult};
ghost use Rattle.agreement.specs.Calls.{set_up, Gives};
ghost use Rattle.tables.specs.Meaning.{answer_of};
ghost use Rattle.turns.specs.Meaning.{kind_of};
ghost use Rattle.setup.specs.Meaning.{plan_in, ring_cut, SamePlaces};

use crate::entering::enter_all;
use crate::inspection::inspect;
use crate::plan::Plan;
use rules::thresholds::sizes_fit;
use tables::refusal::Refusal;
use tables::ring::Ring;
use tables::tables::Tables;
use values::value::Value;
use wires::wire::Wire;

// Sets a ring up, and answers 0. The rows are cut by the plan's own number of parties. A refusal touches nothing.
pub fn set_up<V: Value, W: Wire<V>>(
    plan: &Plan<V>,
    tables: &mut Tables<V>,
    wire: &mut W,
) -> Result<usize, Refusal>
    ensures lent { SamePlaces tables.old tables.new }
    ensures gives { Gives (set_up (kind_of V.width V.valid V.allows) (plan_in V.bytes plan.now) (ring_cut V.bytes plan.now.n tables.old (W.waiting wire.old) (W.capacity wire.old))) (answer_of result) (ring_cut V.bytes plan.now.n tables.new (W.waiting wire.new) (W.capacity wire.new)) }
    ensures leaves { MatchResult result (λ answer. (answer ≡ 0) × (tables.new.ring.n ≡ plan.now.n)) (λ _. (tables.new.ring ≡ tables.old.ring) × (tables.new.records.now ≡ tables.old.records.now) × (tables.new.rows.now ≡ tables.old.rows.now) × (W.waiting wire.new ≡ W.waiting wire.old) × (W.capacity wire.new ≡ W.capacity wire.old)) }
{
    if !sizes_fit(plan.n, plan.f) {
        return Err(Refusal::Sizes);
    }
    let planned = Ring {
        n: plan.n as u8,
        f: plan.f as u8,
        faulty: plan.faulty,
    };
    let seen = tables.shared();
    inspect(&planned, plan.own, seen.records, seen.rows, wire).verdict()?;
    tables.ring = planned;
    enter_all(plan.own, tables, wire);
    Ok(0)
}
