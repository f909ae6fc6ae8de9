// The eleven kinds of messages. A message carries the number of its kind, and one at hand may carry any number.
ghost use Rattle.std.specs.Prelude.{◌≡◌};
ghost use Rattle.messages.specs.Kinds.{kind_number, HasNumber};

use std::fmt;
use thiserror::Error;

#[derive(Clone, Copy, PartialEq, Eq, Debug)]
pub enum Kind {
    Request,
    Suggest,
    Proof,
    Propose,
    Echo,
    Key1,
    Key2,
    Key3,
    Lock,
    Done,
    Abort,
}

impl Kind {
    // The number of the kind: 1 request, 2 suggest, 3 proof, 4 propose, 5 echo, 6 key1, 7 key2, 8 key3, 9 lock,
    // 10 done, 11 abort.
    pub fn number(self) -> u8
        ensures { result ≡ kind_number self }
    {
        match self {
            Kind::Request => 1,
            Kind::Suggest => 2,
            Kind::Proof => 3,
            Kind::Propose => 4,
            Kind::Echo => 5,
            Kind::Key1 => 6,
            Kind::Key2 => 7,
            Kind::Key3 => 8,
            Kind::Lock => 9,
            Kind::Done => 10,
            Kind::Abort => 11,
        }
    }
}

// A number that is no kind's.
#[derive(Clone, Copy, PartialEq, Eq, Debug, Error)]
#[error("no kind of message has the number {0}")]
pub struct NoKind(pub u8);

impl TryFrom<u8> for Kind {
    type Error = NoKind;

    ghost try_from_gives = { HasNumber };

    fn try_from(number: u8) -> Result<Kind, NoKind> {
        match number {
            1 => Ok(Kind::Request),
            2 => Ok(Kind::Suggest),
            3 => Ok(Kind::Proof),
            4 => Ok(Kind::Propose),
            5 => Ok(Kind::Echo),
            6 => Ok(Kind::Key1),
            7 => Ok(Kind::Key2),
            8 => Ok(Kind::Key3),
            9 => Ok(Kind::Lock),
            10 => Ok(Kind::Done),
            11 => Ok(Kind::Abort),
            _ => Err(NoKind(number)),
        }
    }
}

impl fmt::Display for Kind {
    fn fmt<W: fmt::Write>(&self, f: &mut fmt::Formatter<W>) -> fmt::Result {
        f.write_str(match self {
            Kind::Request => "request",
            Kind::Suggest => "suggest",
            Kind::Proof => "proof",
            Kind::Propose => "propose",
            Kind::Echo => "echo",
            Kind::Key1 => "key1",
            Kind::Key2 => "key2",
            Kind::Key3 => "key3",
            Kind::Lock => "lock",
            Kind::Done => "done",
            Kind::Abort => "abort",
        })
    }
}
