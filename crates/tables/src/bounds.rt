// The bounds of the numbers that a party keeps. A call that is handed a table outside them is
// refused, so that a step never meets one.
ghost use Rattle.std.specs.Prelude.{◌≡◌, ℕ};
ghost use Rattle.messages.specs.Messages.{previous_fits};
ghost use Rattle.rules.specs.Bounds.{suggest_fits, proof_fits, fields_fit, previous_below, record_fits, row_fits};
ghost use Rattle.rows.specs.Meaning.{suggest_of, proof_of, record_of, row_of};

use messages::range::LAST_VIEW;
use rows::keys::{Proof, Suggest, below_key};
use rows::record::Record;
use rows::row::Row;
use values::value::Value;

// A previous key as a message may carry it.
fn previous_in_range(previous: Option<u32>) -> bool
    ensures { result ≡ previous_fits previous }
{
    previous.is_none_or(|p| p <= LAST_VIEW)
}

fn suggest_in_range<V: Value>(s: &Suggest<V>) -> bool
    ensures { result ≡ suggest_fits (suggest_of V.bytes s.now) }
{
    s.key3.at <= LAST_VIEW && s.key2.at <= LAST_VIEW && previous_in_range(s.previous)
}

fn proof_in_range<V: Value>(p: &Proof<V>) -> bool
    ensures { result ≡ proof_fits (proof_of V.bytes p.now) }
{
    p.key1.at <= LAST_VIEW && previous_in_range(p.previous)
}

fn fields_in_bounds<V: Value>(r: &Record<V>) -> bool
    ensures { result ≡ fields_fit (record_of V.bytes r.now) }
{
    r.key1.at <= r.view && r.key2.at <= r.view && r.key3.at <= r.view && r.lock.at <= r.view
}

fn previous_in_bounds<V: Value>(r: &Record<V>) -> bool
    ensures { result ≡ previous_below (record_of V.bytes r.now) }
{
    below_key(r.previous_key1, r.key1.at) && below_key(r.previous_key2, r.key2.at)
}

// Whether every number of a record lies within its bounds.
pub fn record_in_bounds<V: Value>(r: &Record<V>) -> bool
    ensures { result ≡ record_fits (record_of V.bytes r.now) }
{
    r.view >= 1
        && r.view <= LAST_VIEW
        && fields_in_bounds(r)
        && previous_in_bounds(r)
        && suggest_in_range(&r.suggest)
        && proof_in_range(&r.proof)
        && r.offer.as_ref().is_none_or(|k| k.at <= LAST_VIEW)
}

// Whether every number of a row lies within its bounds.
pub fn row_in_bounds<V: Value>(row: &Row<V>) -> bool
    ensures { result ≡ row_fits (row_of V.bytes row.now) }
{
    row.request <= LAST_VIEW
        && row.abort <= LAST_VIEW - 1
        && row.suggest.as_ref().is_none_or(suggest_in_range)
        && row.proof.as_ref().is_none_or(proof_in_range)
}
