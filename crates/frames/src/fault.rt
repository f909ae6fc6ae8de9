// Why a frame is not written, or bytes are not read.
ghost use Rattle.std.specs.Prelude.{◌≡◌};
ghost use Rattle.frames.specs.Faults.{frame_number};

use thiserror::Error;

#[derive(Clone, Copy, PartialEq, Eq, Debug, Error)]
pub enum FrameFault {
    // the buffer is shorter than a frame
    #[error("the buffer is shorter than a frame")]
    Short,
    // a field is out of range, or an unused one is not 0 or blank
    #[error("a field is out of range")]
    Range,
    // the bytes are no frame
    #[error("the bytes are no frame")]
    NotFrame,
}

impl FrameFault {
    // The number by which the refusal is told.
    pub fn number(&self) -> u8
        ensures { result ≡ frame_number self.now }
    {
        match self {
            FrameFault::Short => 4,
            FrameFault::Range => 6,
            FrameFault::NotFrame => 7,
        }
    }
}
