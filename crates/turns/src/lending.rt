// A party over its part of the tables, for one step. Each takes the parts one by one: a struct made right over a part of
// a slice has no proof yet of what the slice ends as.
ghost use Rattle.std.specs.Prelude.{◌≡◌, ◌+◌, ◌<◌, ◌≤◌, true, length};
ghost use Rattle.messages.specs.Messages.{last_view};
ghost use Rattle.messages.specs.Meaning.{message};
ghost use Rattle.rules.specs.Bounds.{party_fits};
ghost use Rattle.rules.specs.Facts.{Proper, most_posts};
ghost use Rattle.rules.specs.Step.{newcomer, enter, on_timer, step as stepping};
ghost use Rattle.rows.specs.Meaning.{setting_of, party_of};
ghost use Rattle.posting.specs.Posting.{Does};

use messages::message::Message;
use party::step::{step, timer};
use rows::party::Party;
use rows::record::Record;
use rows::row::Row;
use rows::seat::Seat;
use values::value::Value;
use views::start::start;
use wires::wire::Wire;

// One step with a message.
pub(crate) fn step_at<V: Value, W: Wire<V>>(
    seat: Seat,
    own: &mut Record<V>,
    rows: &mut [Row<V>],
    w: &mut W,
    m: &Message<V>,
) -> usize
    requires whole { length rows.old ≡ seat.n }
    requires fits { party_fits seat.n (party_of V.bytes own.old rows.old) ≡ true }
    requires proper { Proper V.valid (setting_of V.width V.allows seat) (message V.bytes m.now) }
    requires room { length (W.waiting w.old) + most_posts seat.n ≤ W.capacity w.old }
    ensures step { Does (stepping (setting_of V.width V.allows seat) seat.me (party_of V.bytes own.old rows.old) (message V.bytes m.now)) (party_of V.bytes own.new rows.new) (W.waiting w.old) (W.waiting w.new) (W.capacity w.old) (W.capacity w.new) result }
    ensures fits { party_fits seat.n (party_of V.bytes own.new rows.new) ≡ true }
{
    let mut party = Party { seat, own, rows };
    step(&mut party, w, m)
}

// One step of the timer, in any view but the last.
pub(crate) fn timer_at<V: Value, W: Wire<V>>(
    seat: Seat,
    own: &mut Record<V>,
    rows: &mut [Row<V>],
    w: &mut W,
) -> usize
    requires whole { length rows.old ≡ seat.n }
    requires fits { party_fits seat.n (party_of V.bytes own.old rows.old) ≡ true }
    requires early { own.old.view < last_view }
    requires room { length (W.waiting w.old) + most_posts seat.n ≤ W.capacity w.old }
    ensures step { Does (on_timer (setting_of V.width V.allows seat) seat.me (party_of V.bytes own.old rows.old)) (party_of V.bytes own.new rows.new) (W.waiting w.old) (W.waiting w.new) (W.capacity w.old) (W.capacity w.new) result }
    ensures fits { party_fits seat.n (party_of V.bytes own.new rows.new) ≡ true }
{
    let mut party = Party { seat, own, rows };
    timer(&mut party, w)
}

// The first step, with the party's own value.
pub(crate) fn start_at<V: Value, W: Wire<V>>(
    seat: Seat,
    own: &mut Record<V>,
    rows: &mut [Row<V>],
    w: &mut W,
    value: &V,
) -> usize
    requires whole { length rows.old ≡ seat.n }
    requires room { length (W.waiting w.old) + seat.n ≤ W.capacity w.old }
    ensures step { Does (enter (setting_of V.width V.allows seat) seat.me (newcomer (V.bytes value.now)) 1) (party_of V.bytes own.new rows.new) (W.waiting w.old) (W.waiting w.new) (W.capacity w.old) (W.capacity w.new) result }
    ensures fits { party_fits seat.n (party_of V.bytes own.new rows.new) ≡ true }
{
    let mut party = Party { seat, own, rows };
    start(&mut party, w, value)
}
