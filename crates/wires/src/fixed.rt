// The request that stands for an entry that no call leaves.
ghost use Rattle.std.specs.Prelude.{◌≡◌};
ghost use Rattle.messages.specs.Meaning.{message};
ghost use Rattle.wires.specs.Wire.{fixed_request};

use messages::kind::Kind;
use messages::message::Message;
use values::value::Value;

// The request that an entry out of range means.
pub fn fixed_request<V: Value>() -> Message<V>
    ensures { message V.bytes result ≡ fixed_request V.width }
{
    Message {
        view: 1,
        ..Message::empty(Kind::Request, 1, 1)
    }
}
