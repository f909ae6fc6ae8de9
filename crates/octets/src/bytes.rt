// Bytes written into a buffer, and numbers to and from bytes, most significant first.
ghost use Rattle.std.specs.Prelude.{◌≡◌, ℕ, ◌+◌, ◌≤◌, List, length, take, drop};
ghost use Rattle.std.specs.Int.Digits.{number_from_digits};
ghost use Rattle.octets.specs.Bytes.{be, over};

// Writes bytes at a place of a buffer. Every byte of a frame reaches its buffer here.
pub fn put(out: &mut [u8], at: usize, bs: &[u8])
    requires { at + length bs.now ≤ length out.old }
    ensures { out.new ≡ over out.old at bs.now }
{
    let end = at + bs.len();
    out[at..end].copy_from_slice(bs);
}

// A number of `N` bytes.
pub trait Number<const N: usize>: Copy {
    // the number itself
    ghost number: { Self → ℕ };

    // The number that the bytes write.
    fn from_bytes(bs: &[u8; N]) -> Self
        ensures { number result ≡ number_from_digits 256 bs.now };

    // The bytes of the number.
    fn to_bytes(self) -> [u8; N]
        ensures { result ≡ be N (number self) };

    // values of the same number are the same
    ghost one_value: { (m n : Self) → number m ≡ number n → m ≡ n };
}

impl Number<2> for u16 {
    ghost number = { λ n. n };

    ghost one_value = { λ m n e. e };

    fn from_bytes(bs: &[u8; 2]) -> u16 {
        u16::from_be_bytes(*bs)
    }

    fn to_bytes(self) -> [u8; 2] {
        u16::to_be_bytes(self)
    }
}

impl Number<4> for u32 {
    ghost number = { λ n. n };

    ghost one_value = { λ m n e. e };

    fn from_bytes(bs: &[u8; 4]) -> u32 {
        u32::from_be_bytes(*bs)
    }

    fn to_bytes(self) -> [u8; 4] {
        u32::to_be_bytes(self)
    }
}

impl Number<8> for u64 {
    ghost number = { λ n. n };

    ghost one_value = { λ m n e. e };

    fn from_bytes(bs: &[u8; 8]) -> u64 {
        u64::from_be_bytes(*bs)
    }

    fn to_bytes(self) -> [u8; 8] {
        u64::to_be_bytes(self)
    }
}

// The number in the `N` bytes at a place.
pub fn number_at<T: Number<N>, const N: usize>(from: &[u8], at: usize) -> T
    requires { at + N ≤ length from.now }
    ensures { T.number result ≡ number_from_digits 256 (take N (drop at from.now)) }
{
    let mut bs = [0; N];
    bs.copy_from_slice(&from[at..at + N]);
    T::from_bytes(&bs)
}
