// The lent tables of a ring: records by party, rows by party and then by sender.
ghost use Rattle.std.specs.Prelude.{◌≡◌, ℕ, ◌+◌, ◌*◌, ◌<◌, ◌≤◌, ◌||◌, [], length};
ghost use Rattle.rules.specs.Bounds.{party_fits, every, row_fits};
ghost use Rattle.rows.specs.Meaning.{record_of, rows_of, party_of};
ghost use Rattle.agreement.specs.Ring.{tables_fit};
ghost use Rattle.agreement.specs.Calls.{named};
ghost use Rattle.tables.specs.Meaning.{parties_of, ring_of};

use crate::bounds::{record_in_bounds, row_in_bounds};
use crate::liars::is_named;
use crate::ring::Ring;
use rows::record::Record;
use rows::row::Row;
use values::value::Value;

// A ring over the tables that it is lent.
#[derive(Drop)]
pub struct Tables<'a, 'b, V> {
    pub ring: Ring,
    pub records: &'a mut [Record<V>],
    pub rows: &'b mut [Row<V>],
}

impl<'a, 'b, V> Tables<'a, 'b, V> {
    // The tables of a ring before set-up.
    pub fn new(records: &'a mut [Record<V>], rows: &'b mut [Row<V>]) -> Tables<'a, 'b, V>
        ensures ring { (result.ring.n ≡ 0) × (result.ring.f ≡ 0) × (result.ring.faulty ≡ 0) }
        ensures lent { (result.records.ghost_name ≡ records.entry.ghost_name) × (result.rows.ghost_name ≡ rows.entry.ghost_name) }
        ensures same { (result.records.now ≡ records.old) × (result.rows.now ≡ rows.old) }
    {
        Tables {
            ring: Ring::new(),
            records,
            rows,
        }
    }

    // The parts, to be read.
    pub fn shared(&self) -> SharedTables<V>
        ensures ring { result.ring ≡ self.now.ring }
        ensures same { (result.records.now ≡ self.now.records.now) × (result.rows.now ≡ self.now.rows.now) }
    {
        SharedTables {
            ring: self.ring,
            records: self.records,
            rows: self.rows,
        }
    }
}

// The parts of a ring over its tables, to be read by as many as share them.
#[derive(Clone, Copy)]
pub struct SharedTables<'a, 'b, V> {
    pub ring: Ring,
    pub records: &'a [Record<V>],
    pub rows: &'b [Row<V>],
}

// Where the rows of the party at this index begin: cut by hand, since a part is lent by its bounds.
pub fn base_of(n: u8, index: u8) -> usize
    requires { (index < n) × (n ≤ 64) }
    ensures value { result ≡ index * n }
    ensures within { result + n ≤ n * n }
{
    index as usize * n as usize
}

// Whether every row lies within its bounds.
pub fn rows_in_bounds<V: Value>(rows: &[Row<V>]) -> bool
    ensures { result ≡ every (λ j. row_fits (rows_of V.bytes rows.now j)) (length rows.now) }
{
    rows.iter().all(row_in_bounds)
}

// Whether all that a party keeps lies within its bounds.
pub fn party_in_bounds<V: Value>(mine: &Record<V>, rows: &[Row<V>]) -> bool
    ensures { result ≡ party_fits (length rows.now) (party_of V.bytes mine.now rows.now) }
{
    record_in_bounds(mine) && rows_in_bounds(rows)
}

// Whether the party lies within its bounds; nothing is asked of a faulty one.
fn party_in_order<V: Value>(ring: &Ring, records: &[Record<V>], rows: &[Row<V>], party: u8) -> bool
    requires places { (ring.now.n ≤ length records.now) × (ring.now.n * ring.now.n ≤ length rows.now) }
    requires seated { (1 ≤ party) × (party ≤ ring.now.n) }
    ensures { result ≡ (named ring.now.faulty party || party_fits ring.now.n (parties_of V.bytes ring.now.n records.now rows.now party)) }
{
    if is_named(ring.faulty, party) {
        return true;
    }
    let base = base_of(ring.n, party - 1);
    party_in_bounds(
        &records[party as usize - 1],
        &rows[base..base + ring.n as usize],
    )
}

// A loop and not `all`, whose proof over a range of numbers did not close.
// Whether every honest party lies within its bounds.
fn parties_in_order<V: Value>(ring: &Ring, records: &[Record<V>], rows: &[Row<V>]) -> bool
    requires { (ring.now.n ≤ length records.now) × (ring.now.n * ring.now.n ≤ length rows.now) }
    ensures { result ≡ every (λ i. named ring.now.faulty i || party_fits ring.now.n (parties_of V.bytes ring.now.n records.now rows.now i)) ring.now.n }
{
    for party in 1..=ring.n {
        if !party_in_order(ring, records, rows, party) {
            return false;
        }
    }
    true
}

// How many rows all parties have together.
pub fn rows_of_all(n: u8) -> usize
    ensures { result ≡ n * n }
{
    n as usize * n as usize
}

// A Boolean, since a whole shift answers a number where it does not hold, and the calls a refusal.
// Whether the tables have places for all parties, and every honest party lies within its bounds. The parts one by one,
// here and in what only reads the tables: a `Tables` asks for them to be lent alone, and others may read them too.
// What it tells stays a clause: in a struct that keeps it, the second of two parts lent at once was not proved to lie in memory.
pub fn tables_in_order<V: Value>(ring: &Ring, records: &[Record<V>], rows: &[Row<V>]) -> bool
    ensures { result ≡ tables_fit (ring_of V.bytes ring.now records.now rows.now [] 0) }
{
    if records.len() < ring.n as usize {
        return false;
    }
    if rows.len() < rows_of_all(ring.n) {
        return false;
    }
    parties_in_order(ring, records, rows)
}
