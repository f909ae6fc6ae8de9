// Tables of messages as they come to a party alone in its ring, and of what it posts.
use messages::kind::Kind;
use messages::message::Message;
use ring::delivery::{hand, repeat};
use ring::timing::timer;
use rows::record::Record;
use rows::row::Row;
use setup::plan::Plan;
use setup::setup::set_up;
use std::process::Abort;
use std::test::Fail;
use table_wire::table::TableWire;
use tables::refusal::Refusal;
use tables::tables::Tables;
use values::block::Block;
use values::order::Order;
use values::value::Value;
use wires::fixed::fixed_request;
use wires::wire::Wire;

// The kind of the message that waits first, and how many posts it brings when it is handed for the first time.
#[derive(Clone, Copy)]
struct Expected {
    kind: Kind,
    posts: usize,
}

// From the first request to the decision.
const AGREEMENT: [Expected; 10] = [
    Expected {
        kind: Kind::Request,
        posts: 2,
    },
    Expected {
        kind: Kind::Suggest,
        posts: 1,
    },
    Expected {
        kind: Kind::Proof,
        posts: 0,
    },
    Expected {
        kind: Kind::Propose,
        posts: 1,
    },
    Expected {
        kind: Kind::Echo,
        posts: 1,
    },
    Expected {
        kind: Kind::Key1,
        posts: 1,
    },
    Expected {
        kind: Kind::Key2,
        posts: 1,
    },
    Expected {
        kind: Kind::Key3,
        posts: 1,
    },
    Expected {
        kind: Kind::Lock,
        posts: 1,
    },
    Expected {
        kind: Kind::Done,
        posts: 0,
    },
];

// After a timer: the request of the view that was left, the abort, and the request of the next view.
const NEXT_VIEW: [Expected; 3] = [
    Expected {
        kind: Kind::Request,
        posts: 0,
    },
    Expected {
        kind: Kind::Abort,
        posts: 0,
    },
    Expected {
        kind: Kind::Request,
        posts: 2,
    },
];

fn posts_of(answer: Result<usize, Refusal>) -> Result<usize, Fail> {
    answer.map_err(|_| Fail::new("refused"))
}

// The plan of one honest party.
fn alone<V>(own: &[V]) -> Plan<V> {
    Plan {
        n: 1,
        f: 0,
        faulty: 0,
        own,
    }
}

// Each message of the table is stepped twice, and the second time brings nothing.
fn follow<V: Value, W: Wire<V>>(
    rt: &impl Abort,
    tables: &mut Tables<V>,
    wire: &mut W,
    table: &[Expected],
) -> Result<(), Fail> {
    for expected in table {
        let m = wire.look(0).map_err(|_| Fail::new("nothing waits"))?;
        assert_eq!(rt; m.kind, expected.kind.number());
        assert_eq!(rt; posts_of(repeat(tables, wire, 0))?, expected.posts);
        assert_eq!(rt; posts_of(hand(tables, wire, 0))?, 0);
    }
    Ok(())
}

fn agree_alone<V: Value>(
    rt: &impl Abort,
    own: &[V],
    tables: &mut Tables<V>,
    table: &mut [Message<V>],
) -> Result<(), Fail> {
    let mut wire = TableWire::new(table);
    assert_eq!(rt; posts_of(set_up(&alone(own), tables, &mut wire))?, 0);
    follow(rt, tables, &mut wire, &AGREEMENT)?;
    assert_eq!(rt; wire.count(), 0);
    Ok(())
}

#[test]
fn every_kind_with_a_block(rt: HostRuntime) -> Result<(), Fail> {
    let own = [Block {
        first: 100,
        count: 50,
        party: 1,
    }];
    let mut records = [Record::new(&Block::blank()); 1];
    let mut rows = [Row::empty(); 1];
    let mut table = [fixed_request::<Block>(); 20];
    let mut tables = Tables::new(&mut records, &mut rows);
    agree_alone(&rt, &own, &mut tables, &mut table)
}

#[test]
fn every_kind_with_an_order(rt: HostRuntime) -> Result<(), Fail> {
    let mut records = [Record::new(&Order::Blank); 1];
    let mut rows = [Row::empty(); 1];
    let mut table = [fixed_request::<Order>(); 20];
    let mut tables = Tables::new(&mut records, &mut rows);
    agree_alone(&rt, &[Order::Hold], &mut tables, &mut table)
}

#[test]
fn a_timer_and_its_abort(rt: HostRuntime) -> Result<(), Fail> {
    let mut records = [Record::new(&Order::Blank); 1];
    let mut rows = [Row::empty(); 1];
    let mut table = [fixed_request::<Order>(); 20];
    let mut tables = Tables::new(&mut records, &mut rows);
    let mut wire = TableWire::new(&mut table);
    assert_eq!(rt;
        posts_of(set_up(&alone(&[Order::Hold]), &mut tables, &mut wire))?,
        0
    );
    assert_eq!(rt; posts_of(timer(&mut tables, &mut wire, 1))?, 2);
    follow(&rt, &mut tables, &mut wire, &NEXT_VIEW)
}
