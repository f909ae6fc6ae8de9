// The plan that set-up is given, and the tests of it.
ghost use Rattle.std.specs.Prelude.{◌≡◌, ◌*◌, ◌≤◌, ◌&&◌, ◌||◌, map, length, nat_le};
ghost use Rattle.rules.specs.Bounds.{every};
ghost use Rattle.agreement.specs.Calls.{named, own_of};

use rows::record::Record;
use rows::row::Row;
use tables::liars::is_named;
use tables::ring::Ring;
use tables::tables::rows_of_all;
use values::value::Value;

#[derive(Clone, Copy)]
pub struct Plan<'a, V> {
    // how many parties there are, and how many may lie
    pub n: u64,
    pub f: u64,
    // bit j - 1 names party j as faulty
    pub faulty: u64,
    // the own values by party
    pub own: &'a [V],
}

// Whether the party's own value is allowed; nothing is asked of a faulty one.
fn own_in_order<V: Value>(ring: &Ring, own: &[V], party: u8) -> bool
    requires { (1 ≤ party) × (party ≤ ring.now.n) × (ring.now.n ≤ length own.now) }
    ensures { result ≡ (named ring.now.faulty party || V.allows (own_of (map V.bytes own.now) party)) }
{
    is_named(ring.faulty, party) || own[party as usize - 1].allowed()
}

// A loop and not `all`, whose proof over a range of numbers did not close.
// Whether every honest party's own value is allowed, where there are enough of them.
pub fn owns_in_order<V: Value>(ring: &Ring, own: &[V]) -> bool
    ensures { ring.now.n ≤ length own.now → result ≡ every (λ i. named ring.now.faulty i || V.allows (own_of (map V.bytes own.now) i)) ring.now.n }
{
    if own.len() < ring.n as usize {
        return false;
    }
    for party in 1..=ring.n {
        if !own_in_order(ring, own, party) {
            return false;
        }
    }
    true
}

// Whether there are own values, records and rows enough.
pub fn places_enough<V: Value>(
    ring: &Ring,
    own: &[V],
    records: &[Record<V>],
    rows: &[Row<V>],
) -> bool
    ensures { result ≡ (nat_le ring.now.n (length own.now) && (nat_le ring.now.n (length records.now) && nat_le (ring.now.n * ring.now.n) (length rows.now))) }
{
    let n = ring.n as usize;
    if own.len() < n {
        return false;
    }
    if records.len() < n {
        return false;
    }
    rows.len() >= rows_of_all(ring.n)
}
