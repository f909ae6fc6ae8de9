// Whether a quorum or a voucher of senders backs a claim, and who leads a view.
ghost use Rattle.std.specs.Prelude.{◌≡◌};
ghost use Rattle.rules.specs.Thresholds.{primary as leader, quorum, voucher};
ghost use Rattle.rows.specs.Meaning.{setting_of, rows_of};

use crate::tally::{Claim, tally};
use rows::party::Party;
use rows::seat::Seat;
use rules::thresholds::{primary, quorum_size, voucher_size};
use values::value::Value;

// The party that leads a view.
pub fn primary_of<V: Value>(seat: Seat, view: u32) -> u8
    ensures { result ≡ leader (setting_of V.width V.allows seat) view }
{
    primary(seat.n, view)
}

// Whether a quorum of senders backs the claim.
pub fn has_quorum<V: Value, C: Claim<V>>(party: &Party<V>, claim: &C) -> bool
    ensures { result ≡ quorum (setting_of V.width V.allows party.now.seat) (λ j. C.backed claim.now (rows_of V.bytes party.now.rows.now j)) }
{
    tally(party.rows, claim) >= quorum_size(party.seat.n, party.seat.f)
}

// Whether a voucher of senders backs the claim. One function for both sizes would need a second argument at each use.
pub fn has_voucher<V: Value, C: Claim<V>>(party: &Party<V>, claim: &C) -> bool
    ensures { result ≡ voucher (setting_of V.width V.allows party.now.seat) (λ j. C.backed claim.now (rows_of V.bytes party.now.rows.now j)) }
{
    tally(party.rows, claim) >= voucher_size(party.seat.f)
}
