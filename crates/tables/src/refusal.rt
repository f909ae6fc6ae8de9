// Why a call on a ring is refused. A refusal touches nothing.
ghost use Rattle.std.specs.Prelude.{◌≡◌};
ghost use Rattle.wires.specs.Wire.{fault_number};
ghost use Rattle.tables.specs.Refusals.{refusal_number};

use thiserror::Error;
use wires::fault::WireFault;

#[derive(Clone, Copy, PartialEq, Eq, Debug, Error)]
pub enum Refusal {
    // n or f outside the limits
    #[error("n or f is outside the limits")]
    Sizes,
    // a party that is not of the ring
    #[error("a party is not of the ring")]
    NoParty,
    // more liars than allowed, a send from an honest party, the timer of a faulty one
    #[error("a party may not do that")]
    Standing,
    // a table too short, or a number of an honest party outside its bounds
    #[error("a table is too short or holds a number outside its bounds")]
    Tables,
    // an own value that is not allowed
    #[error("an own value is not allowed")]
    OwnValue,
    // a field of a message out of range
    #[error("a field of a message is out of range")]
    Field,
    // no message at that place
    #[error("no message waits at that place")]
    NoMessage,
    // too little room on the wire
    #[error("there is too little room on the wire")]
    NoRoom,
    // set-up on a wire that is not empty
    #[error("the wire is not empty")]
    WireInUse,
    // the timer of a decided party
    #[error("the party has decided")]
    Decided,
    // the timer in the last view
    #[error("no view follows")]
    LastView,
}

impl Refusal {
    pub fn number(&self) -> u8
        ensures { result ≡ refusal_number self.now }
    {
        match self {
            Refusal::Sizes => 1,
            Refusal::NoParty => 2,
            Refusal::Standing => 3,
            Refusal::Tables => 4,
            Refusal::OwnValue => 5,
            Refusal::Field => 6,
            Refusal::NoMessage => 9,
            Refusal::NoRoom => 10,
            Refusal::WireInUse => 11,
            Refusal::Decided => 12,
            Refusal::LastView => 13,
        }
    }
}

// A wire's fault as a refusal of the ring, by the same number.
impl From<WireFault> for Refusal {
    ghost from_gives = { λ fault refusal. refusal_number refusal ≡ fault_number fault };

    fn from(fault: WireFault) -> Refusal {
        match fault {
            WireFault::Range => Refusal::Field,
            WireFault::NoMessage => Refusal::NoMessage,
            WireFault::NoRoom => Refusal::NoRoom,
        }
    }
}
