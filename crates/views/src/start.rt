// A party at set-up.
ghost use Rattle.std.specs.Prelude.{◌≡◌, ◌+◌, ◌≤◌, true, length};
ghost use Rattle.rules.specs.Bounds.{party_fits};
ghost use Rattle.rules.specs.Step.{empty_row, newcomer, enter as entering};
ghost use Rattle.rows.specs.Meaning.{setting_of, rows_of};
ghost use Rattle.rows.specs.Parties.{party_in, StaysAt};
ghost use Rattle.posting.specs.Posting.{Does};

use crate::entry::enter;
use rows::party::Party;
use rows::record::Record;
use rows::row::Row;
use values::value::Value;
use wires::wire::Wire;

// Empties every row.
fn empty_rows<V: Value>(rows: &mut [Row<V>])
    ensures { rows_of V.bytes rows.new ≡ (λ _. empty_row) }
{
    // no `fill`: it wants a clone that cannot fail, which is not known of every kind of value
    for row in rows.iter_mut() {
        *row = Row::empty();
    }
}

// Sets a party up with its own value: it enters view 1, and posts its request to all.
pub fn start<V: Value, W: Wire<V>>(party: &mut Party<V>, w: &mut W, value: &V) -> usize
    requires { length (W.waiting w.old) + party.old.seat.n ≤ W.capacity w.old }
    ensures lent { StaysAt party.old party.new }
    ensures step { Does (entering (setting_of V.width V.allows party.old.seat) party.old.seat.me (newcomer (V.bytes value.now)) 1) (party_in V.bytes party.new) (W.waiting w.old) (W.waiting w.new) (W.capacity w.old) (W.capacity w.new) result }
    ensures fits { party_fits party.old.seat.n (party_in V.bytes party.new) ≡ true }
{
    *party.own = Record::new(value);
    empty_rows(party.rows);
    enter(party, w, 1)
}
