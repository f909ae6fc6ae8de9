// A walk through the engine, every step printed: messages of both kinds become frames, come back,
// travel over both wires, and each refusal of the frames part is met once; one party alone goes
// from its first request to its decision; and two run sheets are read.
#![tactic(auto)]

mod alone;
mod frames_walk;
mod refusals;
mod samples;
mod sheets_walk;
mod wires_walk;

use crate::alone::walk_alone;
use crate::frames_walk::walk_frames;
use crate::refusals::show_refusals;
use crate::samples::{block_messages, order_messages, request};
use crate::sheets_walk::walk_sheets;
use crate::wires_walk::walk_wire;
use anyhow::ensure;
use describe::blank::Places;
use frame_wire::buffer::FrameWire;
use frames::codec::frame_length;
use messages::message::Message;
use std::fmt::Display;
use table_wire::table::TableWire;
use values::block::Block;
use values::order::Order;
use values::value::Value;

// The same messages over both wires. Each wire has room for two, and the last message is out of
// range, so that a full wire and a bad field are refused on the way.
fn walk_both_wires<V: Value + Display>(
    rt: &HostRuntime,
    table: &mut [Message<V>],
    messages: &[Message<V>],
) -> anyhow::Result<()> {
    println!(rt; "over a wire of a table of messages:")?;
    walk_wire(rt, &mut TableWire::new(table), messages)?;
    let mut buffer = [0u8; 100];
    let size = 2 * frame_length::<V>();
    ensure!(size <= 100, "a buffer too short for two frames");
    println!(rt; "over a wire of a byte buffer of frames:")?;
    walk_wire(rt, &mut FrameWire::new(&mut buffer[0..size]), messages)
}

fn walk(rt: &HostRuntime) -> anyhow::Result<()> {
    println!(rt; "== messages about blocks")?;
    let blocks = block_messages();
    walk_frames(rt, &blocks)?;
    let mut block_table = [request::<Block>(1, 1, 1); 2];
    walk_both_wires(rt, &mut block_table, &blocks)?;
    println!(rt; "== messages about orders")?;
    let orders = order_messages();
    walk_frames(rt, &orders)?;
    let mut order_table = [request::<Order>(1, 1, 1); 2];
    walk_both_wires(rt, &mut order_table, &orders)?;
    println!(rt; "== refusals")?;
    show_refusals(rt)?;
    println!(rt; "== one party alone")?;
    let mut places = Places::new(rt.alloc(), 1)?;
    let mut table = [request::<Block>(1, 1, 1); 20];
    walk_alone(rt, &mut places.tables(), &mut table)?;
    println!(rt; "== run sheets")?;
    walk_sheets(rt)
}

fn main(rt: HostRuntime) -> anyhow::Result<()> {
    walk(&rt)
}
