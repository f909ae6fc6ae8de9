// A ring between two calls: how many parties, how many may lie, and which ones do.
ghost use Rattle.std.specs.Prelude.{◌≡◌, ◌*◌, ◌<◌, ◌≤◌};

use rows::seat::Seat;

// Before set-up there are no parties. Bit j - 1 of the word names party j as faulty.
#[derive(Clone, Copy, PartialEq, Eq, Debug)]
pub struct Ring {
    pub n: u8,
    pub f: u8,
    pub faulty: u64,
    ghost most: { n ≤ 64 },
    ghost few: { (1 ≤ n → 3 * f < n) },
}

impl Ring {
    // A ring before set-up.
    pub fn new() -> Ring
        ensures { (result.n ≡ 0) × (result.f ≡ 0) × (result.faulty ≡ 0) }
    {
        Ring {
            n: 0,
            f: 0,
            faulty: 0,
        }
    }

    // Where a party of the ring stands.
    pub fn seat(&self, party: u8) -> Seat
        requires { (1 ≤ party) × (party ≤ self.now.n) }
        ensures { (result.n ≡ self.now.n) × (result.f ≡ self.now.f) × (result.me ≡ party) }
    {
        Seat {
            n: self.n,
            f: self.f,
            me: party,
        }
    }
}
