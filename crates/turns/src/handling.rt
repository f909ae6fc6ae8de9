// One message at one party, over its own part of the tables.
ghost use Rattle.std.specs.Prelude.{◌≡◌, ◌+◌, ◌*◌, ◌≤◌, true, false, [], length};
ghost use Rattle.messages.specs.Messages.{in_range};
ghost use Rattle.messages.specs.Meaning.{message};
ghost use Rattle.rules.specs.Step.{step as stepping};
ghost use Rattle.agreement.specs.Ring.{tables_fit};
ghost use Rattle.agreement.specs.Calls.{said, named, stepped, Gives};
ghost use Rattle.tables.specs.Meaning.{parties_of, ring_in, SameTables};
ghost use Rattle.turns.specs.Meaning.{setting_in};

use crate::lending::step_at;
use messages::message::Message;
use tables::tables::{Tables, base_of};
use values::value::Value;
use wires::wire::Wire;

// A message in range reaches an honest party, with room for what it may post.
pub fn receive<V: Value, W: Wire<V>>(tables: &mut Tables<V>, wire: &mut W, m: &Message<V>) -> usize
    requires fit { true ≡ tables_fit (ring_in V.bytes tables.old [] 0) }
    requires places { (tables.old.ring.n ≤ length tables.old.records.now) × (tables.old.ring.n * tables.old.ring.n ≤ length tables.old.rows.now) }
    requires honest { (1 ≤ m.now.to) × (m.now.to ≤ tables.old.ring.n) × (false ≡ named tables.old.ring.faulty m.now.to) }
    requires sent { (1 ≤ m.now.from) × (m.now.from ≤ tables.old.ring.n) × (in_range V.valid V.width (message V.bytes m.now) ≡ true) }
    requires room { length (W.waiting wire.old) + (3 * tables.old.ring.n + 8) ≤ W.capacity wire.old }
    ensures gives { Gives (stepped (ring_in V.bytes tables.old (W.waiting wire.old) (W.capacity wire.old)) m.now.to (W.waiting wire.old) (stepping (setting_in V.width V.allows tables.old.ring) m.now.to (parties_of V.bytes tables.old.ring.n tables.old.records.now tables.old.rows.now m.now.to) (message V.bytes m.now))) (said result) (ring_in V.bytes tables.new (W.waiting wire.new) (W.capacity wire.new)) }
    ensures fit { true ≡ tables_fit (ring_in V.bytes tables.new [] 0) }
    ensures lent { SameTables tables.old tables.new }
{
    let ring = tables.ring;
    let base = base_of(ring.n, m.to - 1);
    step_at(
        ring.seat(m.to),
        &mut tables.records[m.to as usize - 1],
        &mut tables.rows[base..base + ring.n as usize],
        wire,
        m,
    )
}
