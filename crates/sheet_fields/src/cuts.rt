// A text cut at the first of a byte.
ghost use Rattle.std.specs.Prelude.{◌≡◌, true, false, MatchOption};
ghost use Rattle.sheet_fields.specs.Cuts.{before, after, has};

// Named parts and no pair, since contracts cite them.
// The two parts around the byte at which a text was cut.
#[derive(Clone, Copy, PartialEq, Eq, Debug)]
pub struct Halves<'a> {
    pub front: &'a [u8],
    pub rest: &'a [u8],
}

// What stands before and after the first `stop`, or none where there is no such byte.
pub fn cut<'a>(s: &'a [u8], stop: u8) -> Option<Halves<'a>>
    ensures { MatchOption result (has stop s.now ≡ false) (λ c. (has stop s.now ≡ true) × ((c.front.now ≡ before stop s.now) × (c.rest.now ≡ after stop s.now))) }
{
    // not by ?: so the test that there is one is a place of its own, where an edit can turn it
    let end = s.iter().position(|b| *b == stop).unwrap_or(s.len());
    if end >= s.len() {
        return None;
    }
    Some(Halves {
        front: &s[..end],
        rest: &s[end + 1..],
    })
}
