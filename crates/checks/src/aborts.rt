// How far a number of senders has given up.
ghost use Rattle.std.specs.Prelude.{◌≡◌, length, nat_le};
ghost use Rattle.rules.specs.Counting.{count, largest};
ghost use Rattle.rules.specs.Thresholds.{vouched, reached};
ghost use Rattle.rows.specs.Meaning.{setting_of, rows_of};

use claims::votes::GaveUp;
use rows::party::Party;
use rows::row::Row;
use rules::thresholds::{quorum_size, voucher_size};
use tally::tally::tally;
use values::value::Value;

// The largest abort that `size` senders have reached, 0 where there is none.
pub fn reached_by<V: Value>(rows: &[Row<V>], size: usize) -> u32
    ensures { result ≡ largest (λ j. (rows_of V.bytes rows.now j).abort) (λ x. nat_le size (count (λ j. nat_le x (rows_of V.bytes rows.now j).abort) (length rows.now))) (length rows.now) }
{
    // a loop: the proof of a chain by `filter` and `max` was tried and did not close
    let mut top = 0;
    for row in rows {
        if tally(rows, &GaveUp { view: row.abort }) >= size {
            top = row.abort.max(top);
        }
    }
    top
}

// The largest abort that a voucher has reached.
pub fn vouched_abort<V: Value>(party: &Party<V>) -> u32
    ensures { result ≡ vouched (setting_of V.width V.allows party.now.seat) (λ j. (rows_of V.bytes party.now.rows.now j).abort) }
{
    reached_by(party.rows, voucher_size(party.seat.f))
}

// The largest abort that a quorum has reached. It and the one above are the two sizes of the one function before them.
pub fn agreed_abort<V: Value>(party: &Party<V>) -> u32
    ensures { result ≡ reached (setting_of V.width V.allows party.now.seat) (λ j. (rows_of V.bytes party.now.rows.now j).abort) }
{
    reached_by(party.rows, quorum_size(party.seat.n, party.seat.f))
}
