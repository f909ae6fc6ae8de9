// A wire over a lent buffer of frames.
ghost use Rattle.std.specs.Prelude.{◌≡◌, ℕ, min, ◌*◌, ◌/◌, ◌<◌, ◌≤◌, Bool, List, []};
ghost use Rattle.octets.specs.Bytes.{over};
ghost use Rattle.messages.specs.Meaning.{message};
ghost use Rattle.frames.specs.Frames.{frame, frame_length};
ghost use Rattle.frame_wire.specs.Buffer.{places, slot, heard, frames_in, closed};
ghost use Rattle.frames.proofs.Back.{all_spelled};
ghost use Rattle.wires.specs.Wire.{fixed_request};
ghost use Rattle.wires.proofs.Ranges.{fixed_ranged};
ghost use Rattle.std.specs.List.{range_with_len};
ghost use Rattle.std.proofs.lemmas.List.FromFn.{length-map-range_with_len};
ghost use Rattle.std.proofs.Common.{arith};

use frames::codec::{frame_length, read_frame, write_frame_at};
use messages::message::Message;
use messages::range::in_range;
use values::value::Value;
use wires::fault::WireFault;
use wires::fixed::fixed_request;
use wires::gap::close_gap;
use wires::wire::Wire;

// The first `count` places of the buffer wait, a frame each. Bytes that are no frame, which no
// call leaves, mean one fixed request. The same bytes are a wire of each kind of value.
#[derive(Drop)]
pub struct FrameWire<'a> {
    buffer: &'a mut [u8],
    count: usize,
}

impl<'a> FrameWire<'a> {
    // An empty wire whose capacity is how many frames fit whole into the buffer.
    pub fn new(buffer: &'a mut [u8]) -> FrameWire<'a>
        ensures empty { (valid : List ℕ → Bool) (width : ℕ) → frames_in valid width result.count result.buffer.now ≡ [] }
        ensures size { (width : ℕ) → places width result.buffer.now ≡ places width buffer.old }
    {
        FrameWire { buffer, count: 0 }
    }
}

// How many frames fit whole into a buffer of this length.
fn places_of<V: Value>(length: usize) -> usize
    ensures { result ≡ length / frame_length V.width }
{
    length / frame_length::<V>()
}

// Frames are cut by their places, as the meaning of the buffer counts them.
// What a place means.
fn in_slot<V: Value>(buffer: &[u8], i: usize) -> Message<V>
    requires { i < places V.width buffer.now }
    ensures { message V.bytes result ≡ heard V.valid V.width (slot V.width buffer.now i) }
{
    let size = frame_length::<V>();
    let from = i * size;
    read_frame(&buffer[from..from + size]).unwrap_or_else(|_| fixed_request())
}

// Writes a frame at a place.
fn put_slot<V: Value>(buffer: &mut [u8], i: usize, m: &Message<V>)
    requires { i < places V.width buffer.old }
    ensures { buffer.new ≡ over buffer.old (i * frame_length V.width) (frame (message V.bytes m.now)) }
{
    let size = frame_length::<V>();
    write_frame_at(m, buffer, i * size);
}

// Moves the frames after place `i` up over it, as far as place `count`.
fn close_slot<V: Value>(buffer: &mut [u8], i: usize, count: usize)
    requires { (i < count) × (count ≤ places V.width buffer.old) }
    ensures { buffer.new ≡ closed (frame_length V.width) buffer.old i count }
{
    let size = frame_length::<V>();
    close_gap(buffer, i * size, size, count * size);
}

// Answers what place `i` means, and moves the later ones of the first `count` places up over it. Not by look, which
// would hand the message on through a Result.
fn take_slot<V: Value>(buffer: &mut [u8], i: usize, count: usize) -> Message<V>
    requires { (i < count) × (count ≤ places V.width buffer.old) }
    ensures value { message V.bytes result ≡ heard V.valid V.width (slot V.width buffer.old i) }
    ensures after { buffer.new ≡ closed (frame_length V.width) buffer.old i count }
{
    let m = in_slot(buffer, i);
    close_slot::<V>(buffer, i, count);
    m
}

impl<'a, V: Value> Wire<V> for FrameWire<'a> {
    ghost waiting = { λ t. frames_in V.Value.valid V.Value.width t.count t.buffer.now };

    ghost capacity = { λ t. places V.Value.width t.buffer.now };

    ghost held = { λ t. Prim.omega (arith, length-map-range_with_len (λ k. heard V.Value.valid V.Value.width (slot V.Value.width t.buffer.now k)) 0 (min t.count (places V.Value.width t.buffer.now))) };

    ghost fair = { λ t. all_spelled V.Value.valid V.Value.width (fixed_request V.Value.width) (fixed_ranged V.Value.valid V.Value.width V.Value.blank_valid) (slot V.Value.width t.buffer.now) (range_with_len 0 (min t.count (places V.Value.width t.buffer.now))) };

    fn count(&self) -> usize {
        self.count.min(places_of::<V>(self.buffer.len()))
    }

    fn room(&self) -> usize {
        places_of::<V>(self.buffer.len()) - Wire::<V>::count(self)
    }

    fn look(&self, i: usize) -> Result<Message<V>, WireFault> {
        if i >= Wire::<V>::count(self) {
            return Err(WireFault::NoMessage);
        }
        Ok(in_slot(self.buffer, i))
    }

    fn post(&mut self, m: &Message<V>) -> Result<(), WireFault> {
        if !in_range(m) {
            return Err(WireFault::Range);
        }
        let count = self.count;
        if count >= places_of::<V>(self.buffer.len()) {
            return Err(WireFault::NoRoom);
        }
        put_slot(self.buffer, count, m);
        self.count = count + 1;
        Ok(())
    }

    fn take_out(&mut self, i: usize) -> Result<Message<V>, WireFault> {
        let count = Wire::<V>::count(self);
        if i >= count {
            return Err(WireFault::NoMessage);
        }
        let m = take_slot(self.buffer, i, count);
        self.count = count - 1;
        Ok(m)
    }
}
