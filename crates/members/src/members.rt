// The tests that several calls share.
ghost use Rattle.std.specs.Prelude.{◌≡◌, ◌&&◌, if◌then◌else◌, nat_le};
ghost use Rattle.messages.specs.Messages.{between};
ghost use Rattle.wires.specs.Wire.{room_left};
ghost use Rattle.agreement.specs.Ring.{step_room};
ghost use Rattle.tables.specs.Meaning.{result_of};

use messages::message::Message;
use tables::refusal::Refusal;
use tables::ring::Ring;
use values::value::Value;
use wires::wire::Wire;

// Whether the number is a party's.
pub fn has_party(ring: &Ring, party: u64) -> bool
    ensures { result ≡ between 1 ring.now.n party }
{
    1 <= party && party <= ring.n as u64
}

// Whether a message is between parties of the ring.
pub fn has_both<V: Value>(ring: &Ring, m: &Message<V>) -> bool
    ensures { result ≡ (between 1 ring.now.n m.now.from && between 1 ring.now.n m.now.to) }
{
    has_party(ring, m.from as u64) && has_party(ring, m.to as u64)
}

// Whether the wire has room for what one step may post.
pub fn has_room<V: Value, W: Wire<V>>(ring: &Ring, wire: &W) -> bool
    ensures { result ≡ nat_le (step_room ring.now.n) (room_left (W.capacity wire.now) (W.waiting wire.now)) }
{
    3 * ring.n as usize + 8 <= wire.room()
}

// Whether a party may act. First, it is of the ring; then, it is faulty where a faulty one is wanted, or honest where an
// honest one is.
pub fn standing(known: bool, suited: bool) -> Result<(), Refusal>
    ensures { result_of (λ u. u) result ≡ (if known then (if suited then Ok tt else Err 3) else Err 2) }
{
    if !known {
        return Err(Refusal::NoParty);
    }
    if !suited {
        return Err(Refusal::Standing);
    }
    Ok(())
}
