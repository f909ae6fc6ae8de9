// One message between two parties, for any kind of value.
ghost use Rattle.std.specs.Prelude.{◌≡◌};
ghost use Rattle.messages.specs.Kinds.{kind_number};
ghost use Rattle.messages.specs.Meaning.{message};
ghost use Rattle.messages.specs.Messages.{unused};

use crate::kind::Kind;
use crate::range::{uses_key, uses_previous, uses_second, uses_value};
use std::fmt;
use values::value::Value;

// The kind is a number, since a message at hand may carry any: 1 request, 2 suggest, 3 proof, 4 propose, 5 echo,
// 6 key1, 7 key2, 8 key3, 9 lock, 10 done, 11 abort. A field that a kind does not use is 0, or blank.
#[derive(Clone, Copy, PartialEq, Eq, Debug)]
pub struct Message<V> {
    pub kind: u8,
    pub from: u8,
    pub to: u8,
    pub view: u32,
    pub key: u32,
    pub value: V,
    pub second_key: u32,
    pub second_value: V,
    // a previous key; none stands for -1
    pub previous: Option<u32>,
}

impl<V: Value> Message<V> {
    // A message that uses no field but its head: each is 0, or blank.
    pub fn empty(kind: Kind, from: u8, to: u8) -> Message<V>
        ensures { message V.bytes result ≡ unused V.width (kind_number kind) from to }
    {
        Message {
            kind: kind.number(),
            from,
            to,
            view: 0,
            key: 0,
            value: V::blank(),
            second_key: 0,
            second_value: V::blank(),
            previous: Some(0),
        }
    }
}

// The fields that the kind uses, in one line.
impl<V: fmt::Display> fmt::Display for Message<V> {
    fn fmt<W: fmt::Write>(&self, f: &mut fmt::Formatter<W>) -> fmt::Result {
        match Kind::try_from(self.kind) {
            Ok(kind) => write!(f, "{kind}")?,
            Err(_) => f.write_str("unknown")?,
        }
        write!(f, " from {} to {}", self.from, self.to)?;
        if self.kind != Kind::Done.number() {
            write!(f, " in view {}", self.view)?;
        }
        if uses_key(self.kind) {
            write!(f, ", key {}", self.key)?;
        }
        if uses_value(self.kind) {
            write!(f, ", {}", self.value)?;
        }
        if uses_second(self.kind) {
            write!(f, ", second key {}, {}", self.second_key, self.second_value)?;
        }
        match self.previous {
            _ if !uses_previous(self.kind) => Ok(()),
            Some(key) => write!(f, ", previous key {key}"),
            None => f.write_str(", previous key -1"),
        }
    }
}
