// Where a party stands: its own number, in a ring of `n` parties of which `f` may lie.
ghost use Rattle.std.specs.Prelude.{◌*◌, ◌<◌, ◌≤◌};

#[derive(Clone, Copy, PartialEq, Eq, Debug)]
pub struct Seat {
    pub n: u8,
    pub f: u8,
    pub me: u8,
    ghost most: { n ≤ 64 },
    ghost few: { 3 * f < n },
    ghost first: { 1 ≤ me },
    ghost last: { me ≤ n },
}
