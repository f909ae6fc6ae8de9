// Why a call of a shift is refused: its bytes are no frame, or the ring refuses it.
use frames::fault::FrameFault;
use tables::refusal::Refusal;
use thiserror::Error;

#[derive(Clone, Copy, PartialEq, Eq, Debug, Error)]
pub(crate) enum CallFault {
    #[error("{0}")]
    Frame(#[from] FrameFault),
    #[error("{0}")]
    Ring(#[from] Refusal),
}

impl CallFault {
    pub(crate) fn number(&self) -> u8 {
        match self {
            CallFault::Frame(fault) => fault.number(),
            CallFault::Ring(refusal) => refusal.number(),
        }
    }
}
