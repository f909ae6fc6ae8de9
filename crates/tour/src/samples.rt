// The messages that the walk sends.
use messages::kind::Kind;
use messages::message::Message;
use values::block::Block;
use values::order::Order;
use values::rate::Rate;
use values::value::Value;

// A message that uses the view alone.
pub(crate) fn request<V: Value>(from: u8, to: u8, view: u32) -> Message<V> {
    Message {
        view,
        ..Message::empty(Kind::Request, from, to)
    }
}

// A proof: key1 with its value, and the key before it.
pub(crate) fn proof<V: Value>(
    from: u8,
    to: u8,
    view: u32,
    key: u32,
    value: V,
    previous: Option<u32>,
) -> Message<V> {
    Message {
        view,
        key,
        value,
        previous,
        ..Message::empty(Kind::Proof, from, to)
    }
}

// An echo of a value.
pub(crate) fn echo<V: Value>(from: u8, to: u8, view: u32, value: V) -> Message<V> {
    Message {
        view,
        value,
        ..Message::empty(Kind::Echo, from, to)
    }
}

// Messages about blocks; the last has a view beyond the last one.
pub(crate) fn block_messages() -> [Message<Block>; 4] {
    let wish = Block {
        first: 100,
        count: 50,
        party: 1,
    };
    let last = Block {
        first: u64::MAX,
        count: 1,
        party: 64,
    };
    [
        request(2, 1, 1),
        echo(3, 2, 1, wish),
        proof(1, 4, 7, 5, last, Some(2)),
        request(3, 3, 2_000_000_001),
    ]
}

// Messages about orders; the second is a proof with the fastest pace and no key yet, the last has no receiver.
pub(crate) fn order_messages() -> [Message<Order>; 4] {
    let pace = Rate::new(600).map_or(Order::Hold, Order::Pace);
    [
        echo(2, 3, 1, Order::Resume),
        proof(1, 4, 3, 0, pace, None),
        request(4, 1, 2_000_000_000),
        request(4, 0, 2),
    ]
}
