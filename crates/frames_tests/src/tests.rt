use crate::case::Case;
use crate::{block_cases, order_cases};
use frames::codec::{frame_length, read_frame, write_frame};
use frames::fault::FrameFault;
use messages::kind::Kind;
use messages::message::Message;
use octets::bytes::put;
use std::process::Abort;
use std::test::Fail;
use values::block::Block;
use values::order::Order;
use values::rate::Rate;
use values::value::Value;

// How many bytes a buffer has that is longer than every frame, to show that the rest stays as it was.
const ROOM: usize = 60;

// The value with these bytes.
fn value_of<V: Value>(bytes: &[u8]) -> Result<V, Fail> {
    if bytes.len() != V::width_of() {
        return Err(Fail::new("a value of another width"));
    }
    V::read(bytes).ok_or_else(|| Fail::new("no value has these bytes"))
}

// The message of a case.
fn message_of<V: Value>(c: &Case) -> Result<Message<V>, Fail> {
    Ok(Message {
        kind: c.kind,
        from: c.from,
        to: c.to,
        view: c.view,
        key: c.key,
        value: value_of(c.value)?,
        second_key: c.second_key,
        second_value: value_of(c.second_value)?,
        previous: c.previous,
    })
}

// A refusal by its number, which is what the cases hold.
fn refused(answer: Result<usize, FrameFault>) -> Result<u8, Fail> {
    let fault = answer.err().ok_or_else(|| Fail::new("written"))?;
    Ok(fault.number())
}

// A message in range is written as its frame, the bytes after it untouched, and is read back.
fn good<V: Value + PartialEq>(rt: &impl Abort, c: &Case) -> Result<(), Fail> {
    let m = message_of::<V>(c)?;
    let mut out = [170u8; ROOM];
    let n = write_frame(&m, &mut out)?;
    assert_eq!(rt; n, frame_length::<V>());
    assert!(rt; n <= ROOM);
    assert!(rt; &out[..n] == c.frame);
    assert!(rt; out[n..].iter().all(|b| *b == 170));
    assert!(rt; read_frame::<V>(c.frame)? == m);
    Ok(())
}

// Bytes are refused with 7, or are the frame of what is read from them. Answers whether they
// are read.
fn settled<V: Value>(rt: &impl Abort, bytes: &[u8]) -> Result<bool, Fail> {
    match read_frame::<V>(bytes) {
        Err(fault) => {
            assert_eq!(rt; fault.number(), 7);
            Ok(false)
        }
        Ok(m) => {
            let mut out = [0u8; ROOM];
            let n = write_frame(&m, &mut out)?;
            assert!(rt; n <= ROOM);
            assert!(rt; &out[..n] == bytes);
            Ok(true)
        }
    }
}

// How many single-byte changes of a frame are read.
fn kept<V: Value>(rt: &impl Abort, frame: &mut [u8]) -> Result<usize, Fail> {
    let mut count: usize = 0;
    for i in 0..frame.len() {
        let was = frame[i];
        for b in 0..=255u8 {
            frame[i] = b;
            if settled::<V>(rt, frame)? {
                count = count.wrapping_add(1);
            }
        }
        frame[i] = was;
    }
    Ok(count)
}

// Each single-byte change of a frame is refused or spells another message, as in the table.
fn damaged<V: Value>(rt: &impl Abort, c: &Case, buffer: &mut [u8]) -> Result<(), Fail> {
    let n = c.frame.len();
    assert!(rt; n <= buffer.len());
    put(buffer, 0, c.frame);
    assert_eq!(rt; kept::<V>(rt, &mut buffer[..n])?, c.kept);
    Ok(())
}

// A message out of range is refused with 6, the buffer untouched; its bytes are no frame.
fn bad<V: Value>(rt: &impl Abort, c: &Case) -> Result<(), Fail> {
    let m = message_of::<V>(c)?;
    let mut out = [170u8; ROOM];
    assert_eq!(rt; refused(write_frame(&m, &mut out))?, 6);
    assert!(rt; out == [170u8; ROOM]);
    assert!(rt; !settled::<V>(rt, c.frame)?);
    Ok(())
}

// A buffer or bytes of another length are refused.
fn lengths<V: Value>(rt: &impl Abort, c: &Case) -> Result<(), Fail> {
    let m = message_of::<V>(c)?;
    for n in 0..c.frame.len() {
        assert!(rt; !settled::<V>(rt, &c.frame[..n])?);
        assert!(rt; n <= ROOM);
        let mut out = [170u8; ROOM];
        assert_eq!(rt; refused(write_frame(&m, &mut out[..n]))?, 4);
        assert!(rt; out == [170u8; ROOM]);
    }
    Ok(())
}

// Every case is written and read back, and refused at any other length.
fn all_written<V: Value + PartialEq>(rt: &impl Abort, cases: &[Case]) -> Result<(), Fail> {
    for c in cases {
        good::<V>(rt, c)?;
        lengths::<V>(rt, c)?;
    }
    Ok(())
}

// Every case with each of its bytes changed.
fn all_damaged<V: Value>(rt: &impl Abort, cases: &[Case]) -> Result<(), Fail> {
    for c in cases {
        let mut buffer = [0u8; ROOM];
        damaged::<V>(rt, c, &mut buffer)?;
    }
    Ok(())
}

fn all_bad<V: Value>(rt: &impl Abort, cases: &[Case]) -> Result<(), Fail> {
    for c in cases {
        bad::<V>(rt, c)?;
    }
    Ok(())
}

#[test]
fn block_frames(rt: HostRuntime) -> Result<(), Fail> {
    all_written::<Block>(&rt, &block_cases::GOOD)
}

#[test]
fn order_frames(rt: HostRuntime) -> Result<(), Fail> {
    all_written::<Order>(&rt, &order_cases::GOOD)
}

#[test]
fn block_damage(rt: HostRuntime) -> Result<(), Fail> {
    all_damaged::<Block>(&rt, &block_cases::GOOD)
}

#[test]
fn order_damage(rt: HostRuntime) -> Result<(), Fail> {
    all_damaged::<Order>(&rt, &order_cases::GOOD)
}

#[test]
fn out_of_range(rt: HostRuntime) -> Result<(), Fail> {
    all_bad::<Block>(&rt, &block_cases::BAD)?;
    all_bad::<Order>(&rt, &order_cases::BAD)
}

// A short buffer is told before a field out of range.
#[test]
fn short_before_range(rt: HostRuntime) -> Result<(), Fail> {
    for c in &order_cases::BAD {
        let m = message_of::<Order>(c)?;
        let mut out = [170u8; 25];
        assert_eq!(rt; refused(write_frame(&m, &mut out))?, 4);
        assert!(rt; out == [170u8; 25]);
    }
    Ok(())
}

// The proof of pace 600 from 1 to 4 in view 3, byte for byte.
#[test]
fn pace_proof(rt: HostRuntime) -> Result<(), Fail> {
    let rate = Rate::new(600).ok_or_else(|| Fail::new("no rate"))?;
    let m = Message {
        view: 3,
        value: Order::Pace(rate),
        previous: None,
        ..Message::empty(Kind::Proof, 1, 4)
    };
    let mut out = [0u8; 26];
    assert_eq!(rt; write_frame(&m, &mut out)?, 26);
    assert!(rt;
        out == *b"\x03\x01\x04\x00\x00\x00\x00\x03\x00\x00\x00\x00\x00\x00\x00\x00\xff\xff\xff\xff\x03\x02\x58\x00\x00\x00"
    );
    Ok(())
}

// A block by its numbers.
fn block(first: u64, count: u32, party: u16) -> Block {
    Block {
        first,
        count,
        party,
    }
}

#[test]
fn allowed_blocks(rt: HostRuntime) {
    assert!(rt; block(u64::MAX, 1, 1).allowed());
    assert!(rt; !block(u64::MAX, 2, 1).allowed());
    assert!(rt; !block(0, 0, 1).allowed());
    assert!(rt; block(0, 1_000_000, 64).allowed());
    assert!(rt; !block(0, 1_000_001, 64).allowed());
    assert!(rt; !block(0, 1, 0).allowed());
    assert!(rt; !block(0, 1, 65).allowed());
}

#[test]
fn allowed_orders(rt: HostRuntime) -> Result<(), Fail> {
    assert!(rt; Order::Hold.allowed() && Order::Resume.allowed() && !Order::Blank.allowed());
    assert!(rt; Rate::new(0).is_none() && Rate::new(601).is_none());
    let rate = Rate::new(1).ok_or_else(|| Fail::new("no rate"))?;
    assert!(rt; Order::Pace(rate).allowed());
    Ok(())
}
