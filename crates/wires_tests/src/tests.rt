use crate::drive::{Call, alike, run};
use frame_wire::buffer::FrameWire;
use table_wire::table::TableWire;
use values::block::Block;
use values::order::Order;
use wires::fixed::fixed_request;

// Refusals stand in the table as 1,000 more than their numbers, as they always have.
// On a wire with three places: the order of the list, the refusals, and that a refusal changes
// nothing. An echo of view 0 is out of range, which is looked at before the room.
const THREE_PLACES: [(Call, usize); 22] = [
    (Call::Count, 0),
    (Call::Room, 3),
    (Call::Look(0), 1_009),
    (Call::Post(0), 1_006),
    (Call::Post(7), 0),
    (Call::Post(8), 0),
    (Call::Room, 1),
    (Call::Post(9), 0),
    (Call::Post(10), 1_010),
    (Call::Post(0), 1_006),
    (Call::Look(1), 8),
    (Call::TakeOut(3), 1_009),
    (Call::TakeOut(0), 7),
    (Call::Look(0), 8),
    (Call::Look(1), 9),
    (Call::Look(2), 1_009),
    (Call::Post(11), 0),
    (Call::TakeOut(1), 9),
    (Call::Look(0), 8),
    (Call::Look(1), 11),
    (Call::Count, 2),
    (Call::Room, 1),
];

// Two wires of two types; the calls are one table.
#[test]
fn table_of_three(rt: HostRuntime) {
    let mut table = [fixed_request::<Order>(); 3];
    let mut w = TableWire::new(&mut table);
    run(&rt, &mut w, &THREE_PLACES, &Order::Hold);
}

// Room for three frames of 26 bytes, and 25 bytes that hold none.
#[test]
fn buffer_of_three(rt: HostRuntime) {
    let mut buffer = [0u8; 103];
    let mut w = FrameWire::new(&mut buffer);
    run(&rt, &mut w, &THREE_PLACES, &Order::Hold);
}

// Room for five frames of 48 bytes beside a table of five.
#[test]
fn the_same_answers(rt: HostRuntime) {
    let mut table = [fixed_request::<Block>(); 5];
    let mut buffer = [255u8; 250];
    let mut a = TableWire::new(&mut table);
    let mut b = FrameWire::new(&mut buffer);
    let value = Block {
        first: 100,
        count: 50,
        party: 1,
    };
    alike(&rt, &mut a, &mut b, &value);
}
