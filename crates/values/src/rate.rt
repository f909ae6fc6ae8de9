// A pace of printing, 1 to 600; the figures are those of the definitions, which the reader of sheets cites too.
ghost use Rattle.std.specs.Prelude.{◌≡◌, ◌≤◌, true, false, MatchOption};
ghost use Rattle.values.specs.Paces.{pace_fits};

#[derive(Clone, Copy, PartialEq, Eq, Debug)]
pub struct Rate {
    number: u16,
    ghost low: { 1 ≤ number },
    ghost high: { number ≤ 600 },
}

impl Rate {
    // The rate with this number, or none where there is none.
    pub fn new(number: u16) -> Option<Rate>
        ensures { MatchOption result (pace_fits number ≡ false) (λ x. (pace_fits number ≡ true) × (x.number ≡ number)) }
    {
        if number < 1 || number > 600 {
            return None;
        }
        Some(Rate { number })
    }

    pub fn number(&self) -> u16
        ensures { result ≡ self.now.number }
    {
        self.number
    }
}
