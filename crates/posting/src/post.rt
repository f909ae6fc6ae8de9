// Posting to a wire that is known to take it.
ghost use Rattle.std.specs.Prelude.{◌≡◌, [], ◌∷◌, length};
ghost use Rattle.messages.specs.Meaning.{message};
ghost use Rattle.rules.specs.Posts.{to_each};
ghost use Rattle.rows.specs.Meaning.{row_of, rows_of};
ghost use Rattle.posting.specs.Posting.{Takes, Posted, addressed, goes};

use crate::audience::Audience;
use messages::message::Message;
use rows::row::Row;
use rows::seat::Seat;
use values::value::Value;
use wires::wire::Wire;

// Posts one message, and answers 1.
pub fn post_one<V: Value, W: Wire<V>>(w: &mut W, m: &Message<V>) -> usize
    requires { Takes V.valid V.width (W.capacity w.old) (W.waiting w.old) (message V.bytes m.now ∷ []) }
    ensures { Posted (W.waiting w.old) (W.waiting w.new) (W.capacity w.old) (W.capacity w.new) result (message V.bytes m.now ∷ []) }
{
    // it is in range, and there is room
    let _ = w.post(m);
    1
}

// Whether a party with this row is among the audience.
fn goes_to<V: Value>(whom: Audience, row: &Row<V>) -> bool
    ensures { result ≡ goes whom (row_of V.bytes row.now) }
{
    match whom {
        Audience::All => true,
        Audience::Joined(view) => row.request == view,
    }
}

// Posts a message to each party of the audience, in rising order.
pub fn post_each<V: Value, W: Wire<V>>(
    seat: Seat,
    rows: &[Row<V>],
    w: &mut W,
    whom: Audience,
    m: &Message<V>,
) -> usize
    requires whole { length rows.now ≡ seat.n }
    requires taken { Takes V.valid V.width (W.capacity w.old) (W.waiting w.old) (to_each (λ j. goes whom (rows_of V.bytes rows.now j)) (addressed (message V.bytes m.now)) seat.n) }
    ensures { Posted (W.waiting w.old) (W.waiting w.new) (W.capacity w.old) (W.capacity w.new) result (to_each (λ j. goes whom (rows_of V.bytes rows.now j)) (addressed (message V.bytes m.now)) seat.n) }
{
    let mut posts = 0;
    for (i, row) in rows.iter().enumerate() {
        if goes_to(whom, row) {
            let to = i as u8 + 1;
            posts += post_one(w, &Message { to, ..*m });
        }
    }
    posts
}
