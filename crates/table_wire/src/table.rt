// A wire over a lent table of messages.
ghost use Rattle.std.specs.Prelude.{◌≡◌, ◌+◌, ◌-◌, ◌<◌, ◌≤◌, [], map, length, drop, slice_index_or, slice_set};
ghost use Rattle.std.proofs.Math.Seq.{paste};
ghost use Rattle.messages.specs.Meaning.{message};
ghost use Rattle.wires.specs.Wire.{fixed_request};
ghost use Rattle.wires.specs.Table.{entry, entries};
ghost use Rattle.wires.proofs.Places.{length_front};
ghost use Rattle.wires.proofs.Ranges.{entries-ranged};
ghost use Rattle.std.proofs.Common.{arith};

use messages::message::Message;
use messages::range::in_range;
use values::value::Value;
use wires::fault::WireFault;
use wires::fixed::fixed_request;
use wires::gap::close_gap;
use wires::wire::Wire;

// Beside the wire of frames: one over a trait of places would hide entries and frames behind two more ghost members.
// The first `count` entries of the table wait. An entry out of range, which no call leaves,
// means one fixed request.
#[derive(Drop)]
pub struct TableWire<'a, V> {
    table: &'a mut [Message<V>],
    count: usize,
}

impl<'a, V: Value> TableWire<'a, V> {
    // An empty wire whose capacity is the length of the table.
    pub fn new(table: &'a mut [Message<V>]) -> TableWire<'a, V>
        ensures empty { entries V.valid V.width V.bytes result.count result.table.now ≡ [] }
        ensures size { length result.table.now ≡ length table.old }
    {
        TableWire { table, count: 0 }
    }
}

// What one entry of a table means.
fn entry_at<V: Value>(table: &[Message<V>], i: usize) -> Message<V>
    requires { i < length table.now }
    ensures { message V.bytes result ≡ slice_index_or (map (entry V.valid V.width V.bytes) table.now) i (fixed_request V.width) }
{
    let m = table[i];
    if in_range(&m) { m } else { fixed_request() }
}

// Writes one entry of a table.
fn put_entry<V: Value>(table: &mut [Message<V>], i: usize, m: &Message<V>)
    requires { i < length table.old }
    ensures { table.new ≡ slice_set table.old i m.now }
{
    table[i] = *m;
}

// Answers one of the first `count` entries, and moves the later ones of these up over it. Not by look, which would hand
// the message on through a Result.
fn take_entry<V: Value>(table: &mut [Message<V>], i: usize, count: usize) -> Message<V>
    requires { (i < count) × (count ≤ length table.old) }
    ensures value { message V.bytes result ≡ slice_index_or (map (entry V.valid V.width V.bytes) table.old) i (fixed_request V.width) }
    ensures after { table.new ≡ paste table.old i (drop (i + 1) table.old) (count - (i + 1)) }
{
    let m = entry_at(table, i);
    close_gap(table, i, 1, count);
    m
}

impl<'a, V: Value> Wire<V> for TableWire<'a, V> {
    ghost waiting = { λ t. entries V.Value.valid V.Value.width V.Value.bytes t.count t.table.now };

    ghost capacity = { λ t. length t.table.now };

    ghost held = { λ t. Prim.omega (arith, length_front (entry V.Value.valid V.Value.width V.Value.bytes) t.table.now t.count) };

    ghost fair = { λ t. entries-ranged V.Value.valid V.Value.width V.Value.blank_valid V.Value.bytes t.count t.table.now };

    fn count(&self) -> usize {
        self.count.min(self.table.len())
    }

    fn room(&self) -> usize {
        self.table.len() - self.count()
    }

    fn look(&self, i: usize) -> Result<Message<V>, WireFault> {
        if i >= self.count() {
            return Err(WireFault::NoMessage);
        }
        Ok(entry_at(self.table, i))
    }

    fn post(&mut self, m: &Message<V>) -> Result<(), WireFault> {
        if !in_range(m) {
            return Err(WireFault::Range);
        }
        let count = self.count;
        if count >= self.table.len() {
            return Err(WireFault::NoRoom);
        }
        put_entry(self.table, count, m);
        self.count = count + 1;
        Ok(())
    }

    fn take_out(&mut self, i: usize) -> Result<Message<V>, WireFault> {
        let count = self.count();
        if i >= count {
            return Err(WireFault::NoMessage);
        }
        let m = take_entry(self.table, i, count);
        self.count = count - 1;
        Ok(m)
    }
}
