// The tests on a lock.
ghost use Rattle.std.specs.Prelude.{◌≡◌};
ghost use Rattle.rules.specs.Tests.{lock_opened};
ghost use Rattle.rules.specs.Step.{lock_fits};
ghost use Rattle.rows.specs.Meaning.{setting_of, record_of};
ghost use Rattle.rows.specs.Parties.{party_in};

use claims::keys::Opens;
use rows::party::Party;
use tally::thresholds::has_voucher;
use values::value::Value;

// Whether a voucher of proofs opens the lock.
pub fn opened<V: Value>(party: &Party<V>) -> bool
    ensures { result ≡ lock_opened (setting_of V.width V.allows party.now.seat) (party_in V.bytes party.now) }
{
    let opens = Opens {
        view: party.own.view,
        lock: party.own.lock,
    };
    has_voucher(party, &opens)
}

// Whether there is no lock, or it is on this value.
pub fn fits_lock<V: Value>(party: &Party<V>, value: &V) -> bool
    ensures { result ≡ lock_fits (setting_of V.width V.allows party.now.seat) party.now.seat.me (record_of V.bytes party.now.own.now) (V.bytes value.now) }
{
    party.own.lock.at == 0 || party.own.lock.value.same(value)
}
