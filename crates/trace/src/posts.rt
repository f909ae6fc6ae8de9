// What a call posted, as frames.
use anyhow::Context;
use frames::codec::{frame_length, write_frame};
use messages::message::Message;
use std::alloc::Global;
use std::fmt::Write;
use values::value::Value;
use wires::wire::Wire;

// Adds the line of a message, whose frame is written into this buffer on the way.
fn add_post<V: Value>(
    heap: Global,
    out: &mut String,
    frame: &mut [u8],
    m: &Message<V>,
) -> anyhow::Result<()> {
    let _length = write_frame(m, frame)
        .ok()
        .context("a message that waits has no frame")?;
    let digits = hex::encode(heap, &*frame)?;
    writeln!(out, "post={digits}")?;
    Ok(())
}

// Adds the last messages of the wire, which a call has just posted, to a text; describe prints them to the host.
pub(crate) fn add_posts<V: Value, W: Wire<V>>(
    heap: Global,
    out: &mut String,
    wire: &W,
    posts: usize,
) -> anyhow::Result<()> {
    let mut frame = vec![in heap; 0u8; frame_length::<V>()]?;
    let count = wire.count();
    for place in count.saturating_sub(posts)..count {
        let m = wire
            .look(place)
            .ok()
            .context("a message that was posted does not wait")?;
        add_post(heap, out, frame.as_mut_slice(), &m)?;
    }
    Ok(())
}
