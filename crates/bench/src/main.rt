// One full agreement of honest parties, each message handed in the order of posting, over both wires.
//   bench               the posts of one agreement, which are exact, for 4 and 16 parties, and bytes kept
//   bench time N ITER   microseconds for ITER agreements of N parties, over each wire: by single calls, and each as one shift
#![tactic(auto)]

use anyhow::{Context, bail, ensure};
use describe::blank::Places;
use frame_wire::buffer::FrameWire;
use frames::codec::frame_length;
use ring::delivery::hand;
use rows::row::Row;
use setup::plan::Plan;
use setup::setup::set_up;
use shift::call::Call;
use shift::shift::run_shift;
use std::alloc::Global;
use std::env;
use std::mem::size_of;
use std::time::Instant;
use table_wire::table::TableWire;
use tables::ring::Ring;
use tables::tables::Tables;
use values::block::Block;
use values::order::Order;
use wires::fixed::fixed_request;
use wires::wire::Wire;

// The most parties of a ring, and places enough on a wire for their agreement.
const PARTIES: usize = 64;

const PLACES: usize = 40_000;

// The plan of n honest parties, each with the same own value.
fn plan_of<'a>(n: usize, own: &'a [Block]) -> Plan<'a, Block> {
    Plan {
        n: n as u64,
        f: 0,
        faulty: 0,
        own,
    }
}

const OWN: [Block; 64] = [Block {
    first: 100,
    count: 50,
    party: 1,
}; 64];

// Sets up n parties and hands over what waits until nothing does; answers how many messages were posted.
fn agree<W: Wire<Block>>(
    n: usize,
    tables: &mut Tables<Block>,
    wire: &mut W,
) -> anyhow::Result<usize> {
    tables.ring = Ring::new();
    let _answer = set_up(&plan_of(n, &OWN), tables, wire)
        .ok()
        .context("set-up was refused")?;
    let mut posts = wire.count();
    for _ in 0..PLACES {
        if wire.count() == 0 {
            return Ok(posts);
        }
        let more = hand(tables, wire, 0).ok().context("a hand was refused")?;
        posts = posts.saturating_add(more);
    }
    bail!("the agreement did not end")
}

// So many agreements over one wire; answers the posts of the last.
fn agree_often<W: Wire<Block>>(
    heap: Global,
    n: usize,
    often: usize,
    wire: &mut W,
) -> anyhow::Result<usize> {
    let mut places = Places::new(heap, PARTIES)?;
    let mut tables = places.tables();
    let mut posts = 0;
    for _ in 0..often {
        posts = agree(n, &mut tables, wire)?;
    }
    Ok(posts)
}

// How many messages an agreement of n honest parties has.
fn posts_of(n: usize) -> usize {
    let square = n.saturating_mul(n);
    square.saturating_mul(8).saturating_add(n.saturating_mul(2))
}

// The same agreement as a whole shift: set-up, and then so many hands of what waits first. Nothing may be left over.
fn agree_by_shift<W: Wire<Block>>(
    n: usize,
    tables: &mut Tables<Block>,
    wire: &mut W,
    calls: &[Call<Block>],
) -> anyhow::Result<()> {
    tables.ring = Ring::new();
    let refused = run_shift(&plan_of(n, &OWN), tables, wire, calls)
        .ok()
        .context("set-up was refused")?;
    ensure!(
        refused == 0 && wire.count() == 0,
        "an agreement has another number of messages"
    );
    Ok(())
}

// The same number of agreements, each as one shift; answers the calls of each.
fn shift_often<W: Wire<Block>>(
    heap: Global,
    n: usize,
    often: usize,
    wire: &mut W,
) -> anyhow::Result<usize> {
    let calls = vec![in heap; Call::Hand(0); posts_of(n)]?;
    let mut places = Places::new(heap, PARTIES)?;
    let mut tables = places.tables();
    for _ in 0..often {
        agree_by_shift(n, &mut tables, wire, calls.as_slice())?;
    }
    Ok(calls.len())
}

// Runs over a new wire of a table of messages.
fn over_table<F: FnOnce(&mut TableWire<Block>) -> anyhow::Result<usize>>(
    heap: Global,
    run: F,
) -> anyhow::Result<usize>
    requires { F.IsAlwaysCallable run }
{
    let mut table = vec![in heap; fixed_request::<Block>(); PLACES]?;
    run(&mut TableWire::new(table.as_mut_slice()))
}

// Runs over a new wire of a buffer of frames.
fn over_frames<F: FnOnce(&mut FrameWire) -> anyhow::Result<usize>>(
    heap: Global,
    run: F,
) -> anyhow::Result<usize>
    requires { F.IsAlwaysCallable run }
{
    let mut buffer = vec![in heap; 0u8; PLACES * frame_length::<Block>()]?;
    run(&mut FrameWire::new(buffer.as_mut_slice()))
}

fn print_posts(rt: &HostRuntime, n: usize) -> anyhow::Result<()> {
    let heap = rt.alloc();
    let by_table = over_table(heap, |wire| agree_often(heap, n, 1, wire))?;
    let by_frames = over_frames(heap, |wire| agree_often(heap, n, 1, wire))?;
    println!(rt; "parties={n} posts={by_table} over a table, {by_frames} over frames")?;
    Ok(())
}

// Runs, and answers what that gives and the microseconds that it takes.
fn timed<F: FnOnce() -> anyhow::Result<usize>>(
    rt: &HostRuntime,
    run: F,
) -> anyhow::Result<(usize, u128)>
    requires { F.IsAlwaysCallable run }
{
    let start = Instant::now(rt)?;
    let answer = run()?;
    Ok((answer, start.elapsed(rt)?.as_micros()))
}

fn print_times(rt: &HostRuntime, n: usize, often: usize) -> anyhow::Result<()> {
    let heap = rt.alloc();
    let (posts, table) = timed(
        rt,
        || over_table(heap, |wire| agree_often(heap, n, often, wire)),
    )?;
    let (_, frames) = timed(
        rt,
        || over_frames(heap, |wire| agree_often(heap, n, often, wire)),
    )?;
    let (_, shift_table) = timed(
        rt,
        || over_table(heap, |wire| shift_often(heap, n, often, wire)),
    )?;
    let (_, shift_frames) = timed(
        rt,
        || over_frames(heap, |wire| shift_often(heap, n, often, wire)),
    )?;
    println!(rt;
        "parties={n} agreements={often} posts={posts} table_us={table} frames_us={frames} shift_table_us={shift_table} shift_frames_us={shift_frames}"
    )?;
    Ok(())
}

// What a party keeps of one neighbour, in bytes of memory.
fn print_sizes(rt: &HostRuntime) -> anyhow::Result<()> {
    let blocks = size_of::<Row<Block>>();
    let orders = size_of::<Row<Order>>();
    println!(rt; "bytes kept per neighbour: {blocks} for blocks, {orders} for orders")?;
    Ok(())
}

fn run(rt: &HostRuntime) -> anyhow::Result<()> {
    let mut args = env::args(rt)?;
    let _ = args.next();
    if args.next().is_none() {
        print_posts(rt, 4)?;
        print_posts(rt, 16)?;
        return print_sizes(rt);
    }
    let (Some(n), Some(often)) = (args.next(), args.next()) else {
        bail!("give the word time, a number of parties and a number of agreements");
    };
    print_times(
        rt,
        n.as_str().parse::<usize>()?,
        often.as_str().parse::<usize>()?,
    )
}

fn main(rt: HostRuntime) -> anyhow::Result<()> {
    run(&rt)
}
