// Which suggests a primary accepts, and which of them it follows.
ghost use Rattle.std.specs.Prelude.{◌≡◌};
ghost use Rattle.std.specs.Option.{option_map};
ghost use Rattle.rules.specs.Party.{Setting};
ghost use Rattle.rules.specs.Tests.{borne_out, accepts, best, higher};
ghost use Rattle.rules.specs.Step.{propose_due};
ghost use Rattle.rows.specs.Meaning.{setting_of, keyed_of, suggest_of};
ghost use Rattle.rows.specs.Parties.{party_in};

use claims::keys::BearsOut;
use rows::keys::{Keyed, Suggest};
use rows::party::Party;
use rows::row::Row;
use tally::tally::Claim;
use tally::thresholds::{has_quorum, has_voucher};
use values::value::Value;

// Whether a voucher of the stored suggests bears out a key.
fn is_borne_out<V: Value>(party: &Party<V>, key: &Keyed<V>) -> bool
    ensures { result ≡ borne_out (setting_of V.width V.allows party.now.seat) (party_in V.bytes party.now) (keyed_of V.bytes key.now) }
{
    let bears_out = BearsOut {
        view: party.own.view,
        key: *key,
    };
    has_voucher(party, &bears_out)
}

// A let-else, since the tests in a closure would be no plainer.
// Whether a suggest is accepted: its value is allowed, and its key3 is 0, or below the view and borne out.
fn accepts_one<V: Value>(party: &Party<V>, suggest: &Option<Suggest<V>>) -> bool
    ensures { result ≡ accepts (setting_of V.width V.allows party.now.seat) (party_in V.bytes party.now) (option_map (suggest_of V.bytes) suggest.now) }
{
    let Some(s) = suggest else {
        return false;
    };
    s.key3.value.allowed()
        && (s.key3.at == 0 || s.key3.at < party.own.view && is_borne_out(party, &s.key3))
}

// The suggest with the higher key3; the first among equals.
fn higher_of<V: Value>(a: Option<Suggest<V>>, b: Option<Suggest<V>>) -> Option<Suggest<V>>
    ensures { (g : Setting) → option_map (suggest_of V.bytes) result ≡ higher g (option_map (suggest_of V.bytes) a) (option_map (suggest_of V.bytes) b) }
{
    match (&a, &b) {
        (Some(s), Some(t)) if s.key3.at < t.key3.at => b,
        (Some(_), _) => a,
        (None, _) => b,
    }
}

// The accepted suggest to follow: the highest key3, and the lowest sender among equals.
pub fn best_of<V: Value>(party: &Party<V>) -> Option<Suggest<V>>
    ensures { option_map (suggest_of V.bytes) result ≡ best (setting_of V.width V.allows party.now.seat) (party_in V.bytes party.now) party.now.seat.n }
{
    // not a fold: with the test inside its closure it is no plainer
    let mut top: Option<Suggest<V>> = None;
    for row in party.rows.iter() {
        if accepts_one(party, &row.suggest) {
            top = higher_of(top, row.suggest);
        }
    }
    top
}

// The sender's suggest is accepted.
#[derive(Drop)]
pub struct Accepted<'a, V> {
    party: &'a Party<'a, 'a, V>,
}

impl<'a, V: Value> Claim<V> for Accepted<'a, V> {
    ghost backed = { λ c row. accepts (setting_of V.Value.width V.Value.allows c.party.now.seat) (party_in V.Value.bytes c.party.now) row.suggest };

    fn backs(&self, row: &Row<V>) -> bool {
        accepts_one(self.party, &row.suggest)
    }
}

// Whether propose is due: none was made in this view, and the accepted suggests form a quorum.
pub fn due_propose<V: Value>(party: &Party<V>) -> bool
    ensures { result ≡ propose_due (setting_of V.width V.allows party.now.seat) party.now.seat.me (party_in V.bytes party.now) }
{
    party.own.offer.is_none() && has_quorum(party, &Accepted { party })
}
