// A kind of value: its width in bytes, and what a value means, its bytes.
ghost use Rattle.std.specs.Prelude.{◌≡◌, ℕ, ◌+◌, ◌≤◌, Bool, true, false, List, length, replicate, MatchOption};
ghost use Rattle.octets.specs.Bytes.{over};
ghost use Rattle.values.specs.Same.{equal};

pub trait Value: Copy {
    const WIDTH: usize;

    // the width as contracts know it
    ghost width: { ℕ };

    // what a value means
    ghost bytes: { Self → List ℕ };

    // the bytes that some value has
    ghost valid: { List ℕ → Bool };

    // the bytes of a value that a ring may agree on
    ghost allows: { List ℕ → Bool };

    // The width, for code that is generic over the kind.
    fn width_of() -> usize
        ensures { result ≡ width };

    // The value whose bytes are all zero. No ring agrees on it; it fills unused fields.
    fn blank() -> Self
        ensures { bytes result ≡ replicate width 0 };

    // Whether two values have the same bytes.
    fn same(&self, other: &Self) -> bool
        ensures { result ≡ equal (bytes self.now) (bytes other.now) };

    // Whether a ring may agree on this value.
    fn allowed(&self) -> bool
        ensures { result ≡ allows (bytes self.now) };

    // Writes the bytes at a place of a buffer, and nothing else.
    fn write(&self, out: &mut [u8], at: usize)
        requires { at + width ≤ length out.old }
        ensures { out.new ≡ over out.old at (bytes self.now) };

    // The value with these bytes, or none where no value has them.
    fn read(from: &[u8]) -> Option<Self>
        requires { length from.now ≡ width }
        ensures { MatchOption result (valid from.now ≡ false) (λ v. (valid from.now ≡ true) × (bytes v ≡ from.now)) };

    ghost sized: { (v : Self) → length (bytes v) ≡ width };

    ghost sound: { (v : Self) → valid (bytes v) ≡ true };

    ghost narrow: { width ≤ 1000 };

    ghost blank_valid: { valid (replicate width 0) ≡ true };

    ghost blank_barred: { allows (replicate width 0) ≡ false };
}
