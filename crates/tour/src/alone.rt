// One party alone in a ring, from its first request to its decision.
use anyhow::Context;
use describe::steps::{print_outcome, print_place, print_posts, record_of};
use messages::message::Message;
use ring::delivery::hand;
use setup::plan::Plan;
use setup::setup::set_up;
use table_wire::table::TableWire;
use tables::tables::Tables;
use values::block::Block;

// Sets up a ring of one, and hands it what waits until nothing does.
pub(crate) fn walk_alone(
    rt: &HostRuntime,
    tables: &mut Tables<Block>,
    table: &mut [Message<Block>],
) -> anyhow::Result<()> {
    let plan = Plan {
        n: 1,
        f: 0,
        faulty: 0,
        own: &[Block {
            first: 100,
            count: 50,
            party: 1,
        }],
    };
    let mut wire = TableWire::new(table);
    let _answer = set_up(&plan, tables, &mut wire)
        .ok()
        .context("a ring of one was refused")?;
    println!(rt; "set-up: the party enters view 1")?;
    print_posts(rt, &wire, 1)?;
    for _ in 0..11 {
        print!(rt; "hand: ")?;
        print_place(rt, &wire, 0)?;
        let before = record_of(tables.records, 1);
        let answer = hand(tables, &mut wire, 0);
        print_outcome(rt, &wire, &before, &record_of(tables.records, 1), answer)?;
    }
    Ok(())
}
