// The set of faulty parties, a word whose bit j - 1 is party j.
ghost use Rattle.std.specs.Prelude.{◌≡◌, ◌+◌, ◌-◌, ◌^◌, ◌<◌, ◌≤◌};
ghost use Rattle.sheet_fields.specs.Cuts.{understood, pieces};
ghost use Rattle.sheet_fields.specs.Numbers.{number, between};
ghost use Rattle.sheet_fields.specs.Parties.{rising, party_set};

use crate::cuts::cut;
use crate::fault::FieldFault;
use crate::number::read_number;
use crate::texts::is_text;

// The number that a text writes, if it is from `low` to `high`.
pub fn read_between(s: &[u8], low: u64, high: u64) -> Result<u64, FieldFault>
    ensures { understood result ≡ between low high (number s.now) }
{
    let n = read_number(s)?;
    if n < low {
        return Err(FieldFault::TooSmall);
    }
    if n > high {
        return Err(FieldFault::TooLarge);
    }
    Ok(n)
}

// The set with one more party, above all that it has.
fn with_party(word: u64, low: u64, party: u64) -> u64
    requires { (word < 2 ^ low) × ((low < party) × (party ≤ 64)) }
    ensures { (result ≡ word + 2 ^ (party - 1)) × (result < 2 ^ party) }
{
    word + (1u64 << (party - 1))
}

// By recursion, as the definition goes.
// Adds the parties of a list with commas to a set whose parties are at most `low`.
fn read_rising(s: &[u8], low: u64, word: u64) -> Result<u64, FieldFault>
    requires { (word < 2 ^ low) × (low ≤ 64) }
    ensures { understood result ≡ rising low word (pieces 44 s.now) }
{
    match cut(s, b',') {
        None => {
            let last = read_between(s, low + 1, 64)?;
            Ok(with_party(word, low, last))
        }
        Some(halves) => {
            let party = read_between(halves.front, low + 1, 64)?;
            read_rising(halves.rest, party, with_party(word, low, party))
        }
    }
}

// `none`, or parties 1 to 64 in rising order with commas.
pub fn read_parties(s: &[u8]) -> Result<u64, FieldFault>
    ensures { understood result ≡ party_set s.now }
{
    if is_text(s, b"none") {
        return Ok(0);
    }
    read_rising(s, 0, 0)
}
