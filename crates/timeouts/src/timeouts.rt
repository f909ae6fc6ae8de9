// A party's view has lasted too long.
ghost use Rattle.std.specs.Prelude.{◌≡◌, ◌≤◌, true, false, [], if◌then◌else◌, OnErr};
ghost use Rattle.agreement.specs.Ring.{tables_fit};
ghost use Rattle.agreement.specs.Calls.{named, timed, Gives};
ghost use Rattle.agreement.specs.Runs.{obey, timer as timing};
ghost use Rattle.tables.specs.Meaning.{ring_in, SameTables, answer_of, result_of};
ghost use Rattle.turns.specs.Meaning.{kind_of};

use members::members::{has_party, has_room, standing};
use messages::range::LAST_VIEW;
use tables::refusal::Refusal;
use tables::ring::Ring;
use tables::tables::Tables;
use turns::timing::time_out;
use values::parties;
use values::value::Value;
use wires::wire::Wire;

// Whether the number is a faulty party's.
fn is_liar(ring: &Ring, party: u64) -> bool
    ensures { party ≤ 64 → result ≡ named ring.now.faulty party }
{
    parties::has_party(ring.faulty, party)
}

// Whether an honest party's timer may run out: it has not decided, a view follows, and there is room for a step.
fn in_time(undecided: bool, early: bool, roomy: bool) -> Result<(), Refusal>
    ensures { result_of (λ u. u) result ≡ (if undecided then (if early then (if roomy then Ok tt else Err 10) else Err 13) else Err 12) }
{
    if !undecided {
        return Err(Refusal::Decided);
    }
    if !early {
        return Err(Refusal::LastView);
    }
    if !roomy {
        return Err(Refusal::NoRoom);
    }
    Ok(())
}

// The timer of an honest party, over tables that fit.
fn honest_timer<V: Value, W: Wire<V>>(
    tables: &mut Tables<V>,
    wire: &mut W,
    party: u8,
) -> Result<usize, Refusal>
    requires fit { true ≡ tables_fit (ring_in V.bytes tables.old [] 0) }
    requires honest { (1 ≤ party) × (party ≤ tables.old.ring.n) × (false ≡ named tables.old.ring.faulty party) }
    ensures gives { Gives (timed (kind_of V.width V.valid V.allows) (ring_in V.bytes tables.old (W.waiting wire.old) (W.capacity wire.old)) party) (answer_of result) (ring_in V.bytes tables.new (W.waiting wire.new) (W.capacity wire.new)) }
    ensures fit { true ≡ tables_fit (ring_in V.bytes tables.new [] 0) }
    ensures untouched { OnErr result ((tables.new.records.now ≡ tables.old.records.now) × (tables.new.rows.now ≡ tables.old.rows.now)) }
    ensures lent { SameTables tables.old tables.new }
{
    let own = tables.records[party as usize - 1];
    in_time(
        own.decision.is_none(),
        own.view < LAST_VIEW,
        has_room(&tables.ring, wire),
    )?;
    Ok(time_out(tables, wire, party))
}

// The timer of a party, over tables that fit.
pub fn run_out<V: Value, W: Wire<V>>(
    tables: &mut Tables<V>,
    wire: &mut W,
    party: u64,
) -> Result<usize, Refusal>
    requires { true ≡ tables_fit (ring_in V.bytes tables.old [] 0) }
    ensures gives { Gives (obey (kind_of V.width V.valid V.allows) (ring_in V.bytes tables.old (W.waiting wire.old) (W.capacity wire.old)) (timing party)) (answer_of result) (ring_in V.bytes tables.new (W.waiting wire.new) (W.capacity wire.new)) }
    ensures fit { true ≡ tables_fit (ring_in V.bytes tables.new [] 0) }
    ensures untouched { OnErr result ((tables.new.records.now ≡ tables.old.records.now) × (tables.new.rows.now ≡ tables.old.rows.now)) }
    ensures lent { SameTables tables.old tables.new }
{
    let ring = tables.ring;
    standing(has_party(&ring, party), !is_liar(&ring, party))?;
    honest_timer(tables, wire, party as u8)
}
