// Sets of parties as words: bit j - 1 is party j.
ghost use Rattle.std.specs.Prelude.{◌≡◌};
ghost use Rattle.values.specs.Parties.{member};

// Whether a party from 1 to 64 is in the set.
pub fn has_party(word: u64, party: u64) -> bool
    ensures { result ≡ member word party }
{
    (1..=64).contains(&party) && (word >> (party - 1)) & 1 == 1
}
