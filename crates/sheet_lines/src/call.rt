// The calls on a ring.
use std::fmt;

// A call on a ring, with the number that its line gives: a place on the wire, or a party.
#[derive(Clone, Copy, PartialEq, Eq, Debug)]
pub enum Call {
    Hand(u64),
    Repeat(u64),
    Lose(u64),
    Timer(u64),
}

// As its line gives it.
impl fmt::Display for Call {
    fn fmt<W: fmt::Write>(&self, f: &mut fmt::Formatter<W>) -> fmt::Result {
        match self {
            Call::Hand(place) => write!(f, "hand={place}"),
            Call::Repeat(place) => write!(f, "repeat={place}"),
            Call::Lose(place) => write!(f, "lose={place}"),
            Call::Timer(party) => write!(f, "timer={party}"),
        }
    }
}
