// What set-up tests of a plan whose sizes are right, and in which order it refuses.
ghost use Rattle.std.specs.Prelude.{◌≡◌, ◌*◌, ◌^◌, ◌≤◌, ◌&&◌, ◌||◌, map, length, ◌==◌, nat_le, nat_lt};
ghost use Rattle.wires.specs.Wire.{room_left};
ghost use Rattle.rules.specs.Counting.{count};
ghost use Rattle.rules.specs.Bounds.{every};
ghost use Rattle.agreement.specs.Calls.{named as is_named, own_of};
ghost use Rattle.setup.specs.Order.{refusal_in, by_order};

use crate::plan::{owns_in_order, places_enough};
use rows::record::Record;
use rows::row::Row;
use tables::liars::{count_named, none_above};
use tables::refusal::Refusal;
use tables::ring::Ring;
use tables::tables::rows_of_all;
use values::value::Value;
use wires::wire::Wire;

// The answers of the tests apart from the order of the refusals, so that each has a proof of its own.
#[derive(Clone, Copy, PartialEq, Eq, Debug)]
pub struct Inspection {
    // the word names no party above n
    pub named: bool,
    // no more than f parties are named
    pub few: bool,
    // there are own values, records and rows enough
    pub places: bool,
    // every honest party's own value is allowed
    pub owns: bool,
    // nothing waits on the wire
    pub vacant: bool,
    // a request from each to each fits on it
    pub roomy: bool,
}

impl Inspection {
    // The first test that fails refuses.
    pub fn verdict(&self) -> Result<(), Refusal>
        ensures { refusal_in result ≡ by_order self.now.named self.now.few self.now.places self.now.owns self.now.vacant self.now.roomy }
    {
        if !self.named {
            return Err(Refusal::NoParty);
        }
        if !self.few {
            return Err(Refusal::Standing);
        }
        if !self.places {
            return Err(Refusal::Tables);
        }
        if !self.owns {
            return Err(Refusal::OwnValue);
        }
        if !self.vacant {
            return Err(Refusal::WireInUse);
        }
        if !self.roomy {
            return Err(Refusal::NoRoom);
        }
        Ok(())
    }
}

// All the tests. Own values that are too few are told by the places; nothing is said of them beside that.
pub fn inspect<V: Value, W: Wire<V>>(
    planned: &Ring,
    own: &[V],
    records: &[Record<V>],
    rows: &[Row<V>],
    wire: &W,
) -> Inspection
    ensures named { result.named ≡ nat_lt planned.now.faulty (2 ^ planned.now.n) }
    ensures few { result.few ≡ nat_le (count (is_named planned.now.faulty) planned.now.n) planned.now.f }
    ensures places { result.places ≡ (nat_le planned.now.n (length own.now) && (nat_le planned.now.n (length records.now) && nat_le (planned.now.n * planned.now.n) (length rows.now))) }
    ensures owns { planned.now.n ≤ length own.now → result.owns ≡ every (λ i. is_named planned.now.faulty i || V.allows (own_of (map V.bytes own.now) i)) planned.now.n }
    ensures vacant { result.vacant ≡ (length (W.waiting wire.now) == 0) }
    ensures roomy { result.roomy ≡ nat_le (planned.now.n * planned.now.n) (room_left (W.capacity wire.now) (W.waiting wire.now)) }
{
    Inspection {
        named: none_above(planned.faulty, planned.n),
        few: count_named(planned.faulty, planned.n) <= planned.f,
        places: places_enough(planned, own, records, rows),
        owns: owns_in_order(planned, own),
        vacant: wire.count() == 0,
        roomy: rows_of_all(planned.n) <= wire.room(),
    }
}
