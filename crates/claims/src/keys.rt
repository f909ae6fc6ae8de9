// Claims on keys: a proof opens a lock, a suggest bears out a key.
ghost use Rattle.std.specs.Prelude.{◌≡◌};
ghost use Rattle.rules.specs.Tests.{up_to, opens_lock, bears_key};
ghost use Rattle.rows.specs.Meaning.{keyed_of};

use rows::keys::{Keyed, below_key};
use rows::row::Row;
use tally::tally::Claim;
use values::value::Value;

// Whether a key is at most a previous one; none is below every key.
fn at_most(key: u32, previous: Option<u32>) -> bool
    ensures { result ≡ up_to key previous }
{
    previous.is_some_and(|p| key <= p)
}

// Each a let-else, since four tests in a closure would be no plainer.
// Alike but for the last test and the part of the row; one over both would take four arguments and be no plainer.
// The sender's proof opens a lock in this view.
#[derive(Clone, Copy)]
pub struct Opens<V> {
    pub view: u32,
    pub lock: Keyed<V>,
}

impl<V: Value> Claim<V> for Opens<V> {
    ghost backed = { λ c row. opens_lock c.view (keyed_of V.Value.bytes c.lock) row.proof };

    fn backs(&self, row: &Row<V>) -> bool {
        let Some(p) = &row.proof else {
            return false;
        };
        below_key(p.previous, p.key1.at)
            && p.key1.at < self.view
            && (at_most(self.lock.at, p.previous)
                || self.lock.at <= p.key1.at && !p.key1.value.same(&self.lock.value))
    }
}

// The sender's suggest bears out a key in this view.
#[derive(Clone, Copy)]
pub struct BearsOut<V> {
    pub view: u32,
    pub key: Keyed<V>,
}

impl<V: Value> Claim<V> for BearsOut<V> {
    ghost backed = { λ c row. bears_key c.view (keyed_of V.Value.bytes c.key) row.suggest };

    fn backs(&self, row: &Row<V>) -> bool {
        let Some(s) = &row.suggest else {
            return false;
        };
        below_key(s.previous, s.key2.at)
            && s.key2.at < self.view
            && (at_most(self.key.at, s.previous)
                || self.key.at <= s.key2.at && s.key2.value.same(&self.key.value))
    }
}
