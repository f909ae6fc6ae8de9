// A call of a shift, for any kind of value; a call of a run sheet has numbers of any size, no send and no show.
use messages::message::Message;

#[derive(Clone, Copy)]
pub enum Call<V> {
    // a place of the wire, counted from 0
    Hand(usize),
    Repeat(usize),
    Lose(usize),
    Send(Message<V>),
    // the number of a party
    Timer(u64),
    Show(u64),
}
