// Messages written as frames and read back.
use anyhow::{Context, ensure};
use describe::hexadecimal::print_hex;
use frames::codec::{frame_length, read_frame, write_frame};
use messages::message::Message;
use std::fmt::Display;
use values::value::Value;

// Writes one message, prints its frame, reads it back, and writes what was read once more.
fn walk_message<V: Value + Display>(rt: &HostRuntime, m: &Message<V>) -> anyhow::Result<()> {
    println!(rt; "message: {m}")?;
    let mut frame = vec![in rt.alloc(); 0u8; frame_length::<V>()]?;
    let length = match write_frame(m, frame.as_mut_slice()) {
        Ok(length) => length,
        Err(fault) => {
            println!(rt; "  refused with {}", fault.number())?;
            return Ok(());
        }
    };
    print!(rt; "  frame of {length} bytes: ")?;
    print_hex(rt, frame.as_slice())?;
    let back = read_frame::<V>(frame.as_slice())
        .ok()
        .context("a frame that was written did not read back")?;
    println!(rt; "  reads back as {back}")?;
    let mut again = vec![in rt.alloc(); 0u8; frame_length::<V>()]?;
    let _length = write_frame(&back, again.as_mut_slice())
        .ok()
        .context("a frame that was read did not write back")?;
    ensure!(again == frame, "a frame that was read did not write back");
    println!(rt; "  and is written back byte for byte")?;
    Ok(())
}

pub(crate) fn walk_frames<V: Value + Display>(
    rt: &HostRuntime,
    messages: &[Message<V>],
) -> anyhow::Result<()> {
    for m in messages {
        walk_message(rt, m)?;
    }
    Ok(())
}
