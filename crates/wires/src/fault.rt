// Why a wire refuses.
ghost use Rattle.std.specs.Prelude.{◌≡◌};
ghost use Rattle.wires.specs.Wire.{fault_number};

use thiserror::Error;

#[derive(Clone, Copy, PartialEq, Eq, Debug, Error)]
pub enum WireFault {
    // a field is out of range
    #[error("a field is out of range")]
    Range,
    // no message waits at that place
    #[error("no message waits at that place")]
    NoMessage,
    // no room is left
    #[error("no room is left")]
    NoRoom,
}

impl WireFault {
    // The number of the refusal: 6, 9 or 10.
    pub fn number(&self) -> u8
        ensures { result ≡ fault_number self.now }
    {
        match self {
            WireFault::Range => 6,
            WireFault::NoMessage => 9,
            WireFault::NoRoom => 10,
        }
    }
}
