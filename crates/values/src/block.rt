// A block of numbers: the first one, how many there are, and the party that prints them.
ghost use Rattle.std.specs.Prelude.{◌≡◌};
ghost use Rattle.values.specs.Blocks.{block_bytes, block_valid, block_allows};
ghost use Rattle.std.proofs.Common.{rules};

use crate::limits::MOST_PARTIES;
use crate::value::Value;
use octets::bytes::{Number, number_at, put};
use std::fmt;

// The most numbers that one block may have.
pub const MOST_NUMBERS: u32 = 1_000_000;

#[derive(Clone, Copy, PartialEq, Eq, Debug)]
pub struct Block {
    pub first: u64,
    pub count: u32,
    pub party: u16,
}

impl Value for Block {
    const WIDTH: usize = 14;

    ghost width = { 14 };

    ghost bytes = { block_bytes };

    ghost valid = { block_valid };

    ghost allows = { block_allows };

    ghost sized = { Prim.search rules };

    ghost sound = { Prim.search rules };

    ghost narrow = { Prim.search rules };

    ghost blank_valid = { Prim.search rules };

    ghost blank_barred = { Prim.search rules };

    fn width_of() -> usize {
        Self::WIDTH
    }

    fn blank() -> Block {
        Block {
            first: 0,
            count: 0,
            party: 0,
        }
    }

    fn same(&self, other: &Block) -> bool {
        // not `self == other`: its proof did not close, as only a field that is read has its range there
        self.first == other.first && self.count == other.count && self.party == other.party
    }

    // The last number, first + count - 1, must be below 2^64.
    fn allowed(&self) -> bool {
        1 <= self.count
            && self.count <= MOST_NUMBERS
            && self.first <= u64::MAX - u64::from(self.count - 1)
            && 1 <= self.party
            && self.party <= u16::from(MOST_PARTIES)
    }

    fn write(&self, out: &mut [u8], at: usize) {
        put(out, at, &self.first.to_bytes());
        put(out, at + 8, &self.count.to_bytes());
        put(out, at + 12, &self.party.to_bytes());
    }

    fn read(from: &[u8]) -> Option<Block> {
        Some(Block {
            first: number_at(from, 0),
            count: number_at(from, 8),
            party: number_at(from, 12),
        })
    }
}

impl fmt::Display for Block {
    fn fmt<W: fmt::Write>(&self, f: &mut fmt::Formatter<W>) -> fmt::Result {
        write!(
            f,
            "block of {} from {} for press {}",
            self.count, self.first, self.party
        )
    }
}
