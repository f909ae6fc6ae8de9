// How many parties a quorum and a voucher have, who leads a view, and which sizes a ring may have.
ghost use Rattle.std.specs.Prelude.{◌≡◌, ◌≤◌};
ghost use Rattle.rules.specs.Thresholds.{quorum_size, voucher_size, sizes_fit, primary as leader};
ghost use Rattle.rules.specs.Party.{Setting};

// The figures stand as the definitions have them.
// Whether a ring may have n parties of which f lie. Every pair of numbers has an answer.
pub fn sizes_fit(n: u64, f: u64) -> bool
    ensures { result ≡ sizes_fit n f }
{
    n >= 1 && n <= 64 && f <= (n - 1) / 3
}

// How many parties a quorum has.
pub fn quorum_size(n: u8, f: u8) -> usize
    ensures { result ≡ quorum_size n f }
{
    n.saturating_sub(f) as usize
}

// How many parties a voucher has.
pub fn voucher_size(f: u8) -> usize
    ensures { result ≡ voucher_size f }
{
    f as usize + 1
}

// The party that leads a view.
pub fn primary(n: u8, view: u32) -> u8
    requires { 1 ≤ n }
    ensures { (g : Setting) → g.n ≡ n → result ≡ leader g view }
{
    (view % n as u32) as u8 + 1
}
