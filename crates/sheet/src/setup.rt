// What a sheet sets up.
use values::block::Block;
use values::order::Order;

// 8 is the most parties of a sheet; contracts write it as a figure.
// Parties, faults, the set of faulty parties (bit j - 1 is party j) and the own values, of one kind.
#[derive(Clone, Copy)]
pub struct Setup<V> {
    pub parties: u64,
    pub faults: u64,
    pub faulty: u64,
    pub own: [V; 8],
}

// A setup of either kind.
#[derive(Clone, Copy)]
pub enum Plan {
    Blocks(Setup<Block>),
    Orders(Setup<Order>),
}
