// The first step of one party at set-up, over its own part of the tables.
ghost use Rattle.std.specs.Prelude.{◌≡◌, ◌+◌, ◌*◌, ◌≤◌, length};
ghost use Rattle.rules.specs.Step.{newcomer, enter};
ghost use Rattle.agreement.specs.Calls.{said, stepped, Gives};
ghost use Rattle.tables.specs.Meaning.{ring_in, SameTables};
ghost use Rattle.turns.specs.Meaning.{setting_in};

use crate::lending::start_at;
use tables::tables::{Tables, base_of};
use values::value::Value;
use wires::wire::Wire;

// A party starts with its own value, with room for a request to each.
pub fn start_party<V: Value, W: Wire<V>>(
    tables: &mut Tables<V>,
    wire: &mut W,
    party: u8,
    own: &V,
) -> usize
    requires places { (tables.old.ring.n ≤ length tables.old.records.now) × (tables.old.ring.n * tables.old.ring.n ≤ length tables.old.rows.now) }
    requires seated { (1 ≤ party) × (party ≤ tables.old.ring.n) }
    requires room { length (W.waiting wire.old) + tables.old.ring.n ≤ W.capacity wire.old }
    ensures gives { Gives (stepped (ring_in V.bytes tables.old (W.waiting wire.old) (W.capacity wire.old)) party (W.waiting wire.old) (enter (setting_in V.width V.allows tables.old.ring) party (newcomer (V.bytes own.now)) 1)) (said result) (ring_in V.bytes tables.new (W.waiting wire.new) (W.capacity wire.new)) }
    ensures lent { SameTables tables.old tables.new }
{
    let ring = tables.ring;
    let base = base_of(ring.n, party - 1);
    start_at(
        ring.seat(party),
        &mut tables.records[party as usize - 1],
        &mut tables.rows[base..base + ring.n as usize],
        wire,
        own,
    )
}
