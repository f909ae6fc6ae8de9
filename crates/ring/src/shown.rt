// What show tells of a party.
use std::fmt;

#[derive(Clone, Copy, PartialEq, Eq, Debug)]
pub enum State {
    Faulty,
    Open,
    Decided,
}

impl fmt::Display for State {
    fn fmt<W: fmt::Write>(&self, f: &mut fmt::Formatter<W>) -> fmt::Result {
        f.write_str(match self {
            State::Faulty => "faulty",
            State::Open => "open",
            State::Decided => "decided",
        })
    }
}

// The four parts are those of a listing, by the rules.
// Of a faulty party the numbers are 0; where nothing is decided the value is blank.
#[derive(Clone, Copy)]
pub struct Shown<V> {
    pub state: State,
    pub view: u32,
    pub lock: u32,
    pub value: V,
}
