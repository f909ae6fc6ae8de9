// Counting the senders that back a claim.
ghost use Rattle.std.specs.Prelude.{◌≡◌, Bool, length};
ghost use Rattle.rules.specs.Counting.{count};
ghost use Rattle.rules.specs.Party.{Row as Sender};
ghost use Rattle.rows.specs.Meaning.{row_of, rows_of};

use rows::row::Row;
use values::value::Value;

// A claim that a sender's row backs or not: a type for each and no closure, since contracts cite the ghost member.
pub trait Claim<V: Value> {
    ghost backed: { Self → Sender → Bool };

    fn backs(&self, row: &Row<V>) -> bool
        ensures { result ≡ backed self.now (row_of V.bytes row.now) };
}

// How many rows back the claim.
pub fn tally<V: Value, C: Claim<V>>(rows: &[Row<V>], claim: &C) -> usize
    ensures { result ≡ count (λ j. C.backed claim.now (rows_of V.bytes rows.now j)) (length rows.now) }
{
    rows.iter().filter(|row| claim.backs(row)).count()
}
