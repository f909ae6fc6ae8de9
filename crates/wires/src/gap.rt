// Closing a gap in a slice.
ghost use Rattle.std.specs.Prelude.{◌≡◌, ◌+◌, ◌-◌, ◌≤◌, length, drop};
ghost use Rattle.std.proofs.Math.Seq.{paste};

// Moves what stands from `at + size` to `end` down to `at`. Nothing else changes.
pub fn close_gap<T: Copy>(s: &mut [T], at: usize, size: usize, end: usize)
    requires { (at + size ≤ end) × (end ≤ length s.old) }
    ensures { s.new ≡ paste s.old at (drop (at + size) s.old) (end - (at + size)) }
{
    s.copy_within(at + size..end, at);
}
