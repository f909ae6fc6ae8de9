// Texts compared byte by byte.
ghost use Rattle.std.specs.Prelude.{◌≡◌};
ghost use Rattle.values.specs.Same.{equal};

// By its name, since the contract cites the definition of sameness of bytes.
// Whether the two texts have the same bytes.
pub fn is_text(s: &[u8], t: &[u8]) -> bool
    ensures { result ≡ equal s.now t.now }
{
    s == t
}
