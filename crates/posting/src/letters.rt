// The messages of a party, each to one receiver.
ghost use Rattle.std.specs.Prelude.{◌≡◌};
ghost use Rattle.messages.specs.Kinds.{kind_number};
ghost use Rattle.messages.specs.Meaning.{message};
ghost use Rattle.rules.specs.Posts.{view_msg, suggest_msg, proof_msg, propose_msg, vote_msg};
ghost use Rattle.rows.specs.Meaning.{setting_of, keyed_of, suggest_of, proof_of};

use messages::kind::Kind;
use messages::message::Message;
use rows::keys::{Keyed, Proof, Suggest};
use rows::seat::Seat;
use values::value::Value;

// A request or an abort.
pub(crate) fn view_letter<V: Value>(seat: Seat, kind: Kind, view: u32, to: u8) -> Message<V>
    ensures { message V.bytes result ≡ view_msg (setting_of V.width V.allows seat) seat.me (kind_number kind) view to }
{
    Message {
        view,
        ..Message::empty(kind, seat.me, to)
    }
}

pub fn suggest_letter<V: Value>(seat: Seat, view: u32, suggest: &Suggest<V>, to: u8) -> Message<V>
    ensures { message V.bytes result ≡ suggest_msg (setting_of V.width V.allows seat) seat.me view (suggest_of V.bytes suggest.now) to }
{
    Message {
        view,
        key: suggest.key3.at,
        value: suggest.key3.value,
        second_key: suggest.key2.at,
        second_value: suggest.key2.value,
        previous: suggest.previous,
        ..Message::empty(Kind::Suggest, seat.me, to)
    }
}

pub fn proof_letter<V: Value>(seat: Seat, view: u32, proof: &Proof<V>, to: u8) -> Message<V>
    ensures { message V.bytes result ≡ proof_msg (setting_of V.width V.allows seat) seat.me view (proof_of V.bytes proof.now) to }
{
    Message {
        view,
        key: proof.key1.at,
        value: proof.key1.value,
        previous: proof.previous,
        ..Message::empty(Kind::Proof, seat.me, to)
    }
}

pub fn propose_letter<V: Value>(seat: Seat, view: u32, offer: &Keyed<V>, to: u8) -> Message<V>
    ensures { message V.bytes result ≡ propose_msg (setting_of V.width V.allows seat) seat.me view (keyed_of V.bytes offer.now) to }
{
    Message {
        view,
        key: offer.at,
        value: offer.value,
        ..Message::empty(Kind::Propose, seat.me, to)
    }
}

// An echo, key1, key2, key3 or lock, or a done with view 0.
pub fn vote_letter<V: Value>(seat: Seat, kind: Kind, view: u32, value: &V, to: u8) -> Message<V>
    ensures { message V.bytes result ≡ vote_msg (setting_of V.width V.allows seat) seat.me (kind_number kind) view (V.bytes value.now) to }
{
    Message {
        view,
        value: *value,
        ..Message::empty(kind, seat.me, to)
    }
}
