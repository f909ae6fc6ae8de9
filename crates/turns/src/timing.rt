// The timer of one party, over its own part of the tables.
ghost use Rattle.std.specs.Prelude.{◌≡◌, ◌+◌, ◌*◌, ◌<◌, ◌≤◌, true, false, [], length};
ghost use Rattle.messages.specs.Messages.{last_view};
ghost use Rattle.rules.specs.Step.{on_timer};
ghost use Rattle.agreement.specs.Ring.{tables_fit};
ghost use Rattle.agreement.specs.Calls.{said, named, stepped, Gives};
ghost use Rattle.tables.specs.Meaning.{parties_of, ring_in, SameTables};
ghost use Rattle.turns.specs.Meaning.{setting_in};

use crate::lending::timer_at;
use tables::tables::{Tables, base_of};
use values::value::Value;
use wires::wire::Wire;

// The timer of an honest party below the last view, with room for what it may post.
pub fn time_out<V: Value, W: Wire<V>>(tables: &mut Tables<V>, wire: &mut W, party: u8) -> usize
    requires fit { true ≡ tables_fit (ring_in V.bytes tables.old [] 0) }
    requires places { (tables.old.ring.n ≤ length tables.old.records.now) × (tables.old.ring.n * tables.old.ring.n ≤ length tables.old.rows.now) }
    requires honest { (1 ≤ party) × (party ≤ tables.old.ring.n) × (false ≡ named tables.old.ring.faulty party) }
    requires early { (parties_of V.bytes tables.old.ring.n tables.old.records.now tables.old.rows.now party).rec.view < last_view }
    requires room { length (W.waiting wire.old) + (3 * tables.old.ring.n + 8) ≤ W.capacity wire.old }
    ensures gives { Gives (stepped (ring_in V.bytes tables.old (W.waiting wire.old) (W.capacity wire.old)) party (W.waiting wire.old) (on_timer (setting_in V.width V.allows tables.old.ring) party (parties_of V.bytes tables.old.ring.n tables.old.records.now tables.old.rows.now party))) (said result) (ring_in V.bytes tables.new (W.waiting wire.new) (W.capacity wire.new)) }
    ensures fit { true ≡ tables_fit (ring_in V.bytes tables.new [] 0) }
    ensures lent { SameTables tables.old tables.new }
{
    let ring = tables.ring;
    let base = base_of(ring.n, party - 1);
    timer_at(
        ring.seat(party),
        &mut tables.records[party as usize - 1],
        &mut tables.rows[base..base + ring.n as usize],
        wire,
    )
}
