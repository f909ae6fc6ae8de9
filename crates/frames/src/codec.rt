// Frames: a message as bytes, and back.
ghost use Rattle.std.specs.Prelude.{◌≡◌, ℕ, ◌+◌, ◌≤◌, true, List, length, take, is_ok, Some, None, MatchResult};
ghost use Rattle.octets.specs.Bytes.{over};
ghost use Rattle.messages.specs.Messages.{in_range};
ghost use Rattle.messages.specs.Meaning.{message};
ghost use Rattle.frames.specs.Frames.{head, frame, frame_length, word, unword, unframe, FrameLength, ReadsBack, WritesBack};
ghost use Rattle.frames.specs.Answers.{written, buffer_after};
ghost use Rattle.frames.specs.declared.fault.FrameFault.TheVariants.{NotFrame};

use crate::fault::FrameFault;
use messages::message::Message;
use messages::range::in_range;
use octets::bytes::{Number, number_at, put};
use values::value::Value;

// How many bytes stand before the values.
const HEAD: usize = 20;

// How many bytes the frame of a message has.
pub fn frame_length<V: Value>() -> usize
    ensures { result ≡ frame_length V.width }
{
    HEAD + 2 * V::width_of()
}

// A previous key as a word: none is -1 in two's complement.
fn word_of(previous: Option<u32>) -> u32
    ensures { result ≡ word previous }
{
    previous.unwrap_or(u32::MAX)
}

// The previous key that a word stands for.
fn previous_of(n: u32) -> Option<u32>
    ensures { result ≡ unword n }
{
    (n != u32::MAX).then_some(n)
}

// Writes the bytes before the values at a place.
fn write_head<V: Value>(m: &Message<V>, out: &mut [u8], at: usize)
    requires { at + 20 ≤ length out.old }
    ensures { out.new ≡ over out.old at (head (message V.bytes m.now)) }
{
    put(out, at, &[m.kind, m.from, m.to, 0]);
    put(out, at + 4, &m.view.to_bytes());
    put(out, at + 8, &m.key.to_bytes());
    put(out, at + 12, &m.second_key.to_bytes());
    put(out, at + 16, &word_of(m.previous).to_bytes());
}

// Writes the frame of a message at a place of a buffer that has the room: the inner part of the
// public calls, which test the room and the ranges.
pub fn write_frame_at<V: Value>(m: &Message<V>, out: &mut [u8], at: usize)
    requires { at + frame_length V.width ≤ length out.old }
    ensures { out.new ≡ over out.old at (frame (message V.bytes m.now)) }
{
    let second = HEAD + V::width_of();
    write_head(m, out, at);
    m.value.write(out, at + HEAD);
    m.second_value.write(out, at + second);
}

// Writes the frame of a message at the front of a buffer, and answers its length. Refuses a
// buffer that is too short, then a field out of range, and leaves the buffer untouched then.
// What was written reads back as the message.
pub fn write_frame<V: Value>(m: &Message<V>, out: &mut [u8]) -> Result<usize, FrameFault>
    ensures answer { result ≡ written V.valid V.width (message V.bytes m.now) out.old }
    ensures after { out.new ≡ buffer_after V.valid V.width (message V.bytes m.now) out.old }
    ensures back { is_ok result ≡ true → unframe V.valid V.width (take (frame_length V.width) out.new) ≡ Some (message V.bytes m.now) }
{
    let length = frame_length::<V>();
    if out.len() < length {
        return Err(FrameFault::Short);
    }
    if !in_range(m) {
        return Err(FrameFault::Range);
    }
    write_frame_at(m, out, 0);
    Ok(length)
}

// The message that bytes spell. Refuses bytes of another length, and bytes that no message in
// range writes. A frame that was read is written back byte for byte.
pub fn read_frame<V: Value>(from: &[u8]) -> Result<Message<V>, FrameFault>
    ensures { MatchResult result (λ m. (unframe V.valid V.width from.now ≡ Some (message V.bytes m)) × (frame (message V.bytes m) ≡ from.now)) (λ e. (unframe V.valid V.width from.now ≡ None) × (e ≡ NotFrame)) }
{
    if from.len() != frame_length::<V>() || from[3] != 0 {
        return Err(FrameFault::NotFrame);
    }
    let second = HEAD + V::width_of();
    // the four bytes of the head by their places, as the format numbers them
    let m = Message {
        kind: from[0],
        from: from[1],
        to: from[2],
        view: number_at(from, 4),
        key: number_at(from, 8),
        value: V::read(&from[HEAD..second]).ok_or(FrameFault::NotFrame)?,
        second_key: number_at(from, 12),
        second_value: V::read(&from[second..]).ok_or(FrameFault::NotFrame)?,
        previous: previous_of(number_at(from, 16)),
    };
    if in_range(&m) {
        Ok(m)
    } else {
        Err(FrameFault::NotFrame)
    }
}

// The frame of a message in range has the length.
pub fn lengths_stand()
    ensures { FrameLength }
{}

// A frame reads as the message that it was made of.
pub fn reads_back()
    ensures { ReadsBack }
{}

// A frame that was read is the frame of what was read.
pub fn writes_back()
    ensures { WritesBack }
{}
