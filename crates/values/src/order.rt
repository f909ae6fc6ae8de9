// An order to a press: hold, resume, or print at a pace. The blank is no order to give.
ghost use Rattle.std.specs.Prelude.{◌≡◌, ◌∷◌};
ghost use Rattle.octets.specs.Bytes.{be};
ghost use Rattle.values.specs.Orders.{order_bytes, order_valid, order_allows};
ghost use Rattle.std.proofs.Common.{rules};

use crate::rate::Rate;
use crate::value::Value;
use octets::bytes::{Number, number_at, put};
use std::fmt;

#[derive(Clone, Copy, PartialEq, Eq, Debug)]
pub enum Order {
    Blank,
    Hold,
    Resume,
    Pace(Rate),
}

impl Order {
    // What to do, as the first byte tells it, and the pace, 0 where it is none.
    fn parts(&self) -> (u8, u16)
        ensures { order_bytes self.now ≡ result.0 ∷ be 2 result.1 }
    {
        match self {
            Order::Blank => (0, 0),
            Order::Hold => (1, 0),
            Order::Resume => (2, 0),
            Order::Pace(rate) => (3, rate.number()),
        }
    }
}

impl Value for Order {
    const WIDTH: usize = 3;

    ghost width = { 3 };

    ghost bytes = { order_bytes };

    ghost valid = { order_valid };

    ghost allows = { order_allows };

    ghost sized = { Prim.search rules };

    ghost sound = { Prim.search rules };

    ghost narrow = { Prim.search rules };

    ghost blank_valid = { Prim.search rules };

    ghost blank_barred = { Prim.search rules };

    fn width_of() -> usize {
        Self::WIDTH
    }

    fn blank() -> Order {
        Self::Blank
    }

    fn same(&self, other: &Order) -> bool {
        self == other
    }

    fn allowed(&self) -> bool {
        !matches!(self, Order::Blank)
    }

    fn write(&self, out: &mut [u8], at: usize) {
        let (what, number) = self.parts();
        put(out, at, &[what]);
        put(out, at + 1, &number.to_bytes());
    }

    fn read(from: &[u8]) -> Option<Order> {
        let number = number_at(from, 1);
        match (from[0], number) {
            (0, 0) => Some(Order::Blank),
            (1, 0) => Some(Order::Hold),
            (2, 0) => Some(Order::Resume),
            (3, _) => Rate::new(number).map(Order::Pace),
            _ => None,
        }
    }
}

impl fmt::Display for Order {
    fn fmt<W: fmt::Write>(&self, f: &mut fmt::Formatter<W>) -> fmt::Result {
        match self {
            Order::Blank => f.write_str("no order"),
            Order::Hold => f.write_str("hold"),
            Order::Resume => f.write_str("resume"),
            Order::Pace(rate) => write!(f, "pace {}", rate.number()),
        }
    }
}
