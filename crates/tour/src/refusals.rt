// Each refusal that the frames part can give, met once.
use crate::samples::block_messages;
use frames::codec::{read_frame, write_frame};
use frames::fault::FrameFault;
use messages::message::Message;
use values::block::Block;

fn print_answer(
    rt: &HostRuntime,
    what: &str,
    answer: Result<usize, FrameFault>,
) -> anyhow::Result<()> {
    match answer {
        Ok(length) => println!(rt; "{what}: accepted, {length} bytes")?,
        Err(fault) => println!(rt; "{what}: refused with {}", fault.number())?,
    }
    Ok(())
}

// Whether bytes read as a message about a block, by the length of the frame.
fn read_answer(bytes: &[u8]) -> Result<usize, FrameFault> {
    let _message: Message<Block> = read_frame(bytes)?;
    Ok(bytes.len())
}

pub(crate) fn show_refusals(rt: &HostRuntime) -> anyhow::Result<()> {
    let good = block_messages()[1];
    let mut frame = [0u8; 48];
    print_answer(rt, "an echo into 48 bytes", write_frame(&good, &mut frame))?;
    let mut short = [0u8; 47];
    print_answer(
        rt,
        "the same echo into 47 bytes",
        write_frame(&good, &mut short),
    )?;
    let mut stray = good;
    stray.key = 1;
    print_answer(
        rt,
        "an echo with a key, which echoes do not use",
        write_frame(&stray, &mut frame),
    )?;
    print_answer(rt, "its 48 bytes read back", read_answer(&frame))?;
    print_answer(rt, "the first 47 of them", read_answer(&frame[0..47]))?;
    frame[0] = 12;
    print_answer(rt, "the 48 bytes with kind 12", read_answer(&frame))
}
