// The faulty parties of a ring, named by the bits of a word: bit j - 1 is party j.
ghost use Rattle.std.specs.Prelude.{◌≡◌, ◌^◌, ◌≤◌, nat_lt};
ghost use Rattle.rules.specs.Counting.{count};
ghost use Rattle.agreement.specs.Calls.{named};

use values::parties::has_party;

// Whether the word names the party.
pub fn is_named(word: u64, party: u8) -> bool
    ensures { party ≤ 64 → result ≡ named word party }
{
    has_party(word, u64::from(party))
}

// How many of the parties 1 to n the word names.
pub fn count_named(word: u64, n: u8) -> u8
    ensures { n ≤ 64 → result ≡ count (named word) n }
{
    // not a filter and a count: its proof over a range of numbers did not close
    let mut found = 0;
    for party in 1..=n {
        if is_named(word, party) {
            found += 1;
        }
    }
    found
}

// Whether the word names no party above n.
pub fn none_above(word: u64, n: u8) -> bool
    ensures { n ≤ 64 → result ≡ nat_lt word (2 ^ n) }
{
    n >= 64 || word >> n as u32 == 0
}
