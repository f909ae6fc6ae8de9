// Claims on what a sender has said: a vote, a done, an abort.
ghost use Rattle.std.specs.Prelude.{◌≡◌, nat_le};
ghost use Rattle.std.specs.Option.{option_map};
ghost use Rattle.rules.specs.Tests.{is};
ghost use Rattle.rows.specs.Votes.{vote_number};

use rows::row::Row;
use rows::vote::Vote;
use tally::tally::Claim;
use values::value::Value;

// Whether an entry is for the value.
fn holds<V: Value>(entry: &Option<V>, value: &V) -> bool
    ensures { result ≡ is (V.bytes value.now) (option_map V.bytes entry.now) }
{
    entry.as_ref().is_some_and(|v| v.same(value))
}

// The sender has voted for the value.
#[derive(Clone, Copy)]
pub struct Votes<V> {
    pub vote: Vote,
    pub value: V,
}

impl<V: Value> Claim<V> for Votes<V> {
    ghost backed = { λ c row. is (V.Value.bytes c.value) (row.vote (vote_number c.vote)) };

    fn backs(&self, row: &Row<V>) -> bool {
        let entry = match self.vote {
            Vote::Echo => &row.echo,
            Vote::Key1 => &row.key1,
            Vote::Key2 => &row.key2,
            Vote::Key3 => &row.key3,
            Vote::Lock => &row.lock,
        };
        holds(entry, &self.value)
    }
}

// The sender is done with the value.
#[derive(Clone, Copy)]
pub struct Told<V> {
    pub value: V,
}

impl<V: Value> Claim<V> for Told<V> {
    ghost backed = { λ c row. is (V.Value.bytes c.value) row.done };

    fn backs(&self, row: &Row<V>) -> bool {
        holds(&row.done, &self.value)
    }
}

// The sender has given up this view or a later one.
#[derive(Clone, Copy, PartialEq, Eq, Debug)]
pub struct GaveUp {
    pub view: u32,
}

impl<V: Value> Claim<V> for GaveUp {
    ghost backed = { λ c row. nat_le c.view row.abort };

    fn backs(&self, row: &Row<V>) -> bool {
        self.view <= row.abort
    }
}
