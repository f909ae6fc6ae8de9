// The first steps of all honest parties, in rising order.
ghost use Rattle.std.specs.Prelude.{◌≡◌, ◌+◌, ◌*◌, ◌≤◌, length};
ghost use Rattle.agreement.specs.Calls.{set_up_done};
ghost use Rattle.tables.specs.Meaning.{ring_in, SameTables};
ghost use Rattle.turns.specs.Meaning.{kind_of};
ghost use Rattle.setup.specs.Meaning.{plan_of};

use tables::liars::is_named;
use tables::tables::Tables;
use turns::starting::start_party;
use values::value::Value;
use wires::wire::Wire;

// Each honest party enters view 1, with room for a request from each to each.
pub fn enter_all<V: Value, W: Wire<V>>(own: &[V], tables: &mut Tables<V>, wire: &mut W)
    requires places { (tables.old.ring.n ≤ length own.now) × (tables.old.ring.n ≤ length tables.old.records.now) × (tables.old.ring.n * tables.old.ring.n ≤ length tables.old.rows.now) }
    requires room { length (W.waiting wire.old) + tables.old.ring.n * tables.old.ring.n ≤ W.capacity wire.old }
    ensures lent { SameTables tables.old tables.new }
    ensures entered { ring_in V.bytes tables.new (W.waiting wire.new) (W.capacity wire.new) ≡ (set_up_done (kind_of V.width V.valid V.allows) (plan_of V.bytes tables.old.ring.n tables.old.ring.f tables.old.ring.faulty own.now) (ring_in V.bytes tables.old (W.waiting wire.old) (W.capacity wire.old))).after }
{
    // by numbers: a chain over them and the own values has no lemma that gives back the number of each
    for party in 1..=tables.ring.n {
        if !is_named(tables.ring.faulty, party) {
            let _ = start_party(tables, wire, party, &own[party as usize - 1]);
        }
    }
}
