// The lines of a shift that name its calls.
use anyhow::{Context, bail};
use frames::codec::read_frame;
use frames::fault::FrameFault;
use hex::FromHexError;
use sheet_fields::number::read_number;
use shift::call::Call;
use std::alloc::{AllocError, Global};
use values::value::Value;

// Not the reader of run sheets: a shift may send, and its lines may be of any length.
// Whether the line names a call, so that the set-up ends before it.
pub(crate) fn is_call(line: &str) -> bool {
    line.starts_with("hand=")
        || line.starts_with("repeat=")
        || line.starts_with("lose=")
        || line.starts_with("timer=")
        || line.starts_with("send=")
}

// The bytes that a text spells. A reason without its cause, as it has always been told; no memory is another one.
fn read_bytes(heap: Global, digits: &str) -> anyhow::Result<Vec<u8>> {
    match hex::decode(heap, digits.as_bytes()) {
        Ok(bytes) => Ok(bytes),
        Err(FromHexError::OutOfMemory) => Err(AllocError.into()),
        Err(_) => bail!("a frame is not written in pairs of hexadecimal digits"),
    }
}

// The call that a line names, or why the bytes of a send are no frame. Numbers are written as in a run sheet.
pub(crate) fn read_call<V: Value>(
    heap: Global,
    line: &str,
) -> anyhow::Result<Result<Call<V>, FrameFault>> {
    let (name, rest) = line
        .split_once('=')
        .context("a line of a shift has no name")?;
    if name == "send" {
        let bytes = read_bytes(heap, rest)?;
        return Ok(read_frame(bytes.as_slice()).map(Call::Send));
    }
    let number = read_number(rest.as_bytes())
        .ok()
        .context("a call of a shift has no number")?;
    let call = match name {
        "hand" => Call::Hand(number as usize),
        "repeat" => Call::Repeat(number as usize),
        "lose" => Call::Lose(number as usize),
        "timer" => Call::Timer(number),
        _ => bail!("a line of a shift names no call"),
    };
    Ok(Ok(call))
}
