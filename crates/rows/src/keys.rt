// Keys with their values, and the contents of a suggest and of a proof.
ghost use Rattle.std.specs.Prelude.{◌≡◌};
ghost use Rattle.rules.specs.Tests.{below};

// A view with the value that was kept in it; view 0 stands for never.
#[derive(Clone, Copy)]
pub struct Keyed<V> {
    pub at: u32,
    pub value: V,
}

// The key3 and key2 that a party tells a primary, and its previous key2 (none is -1).
#[derive(Clone, Copy)]
pub struct Suggest<V> {
    pub key3: Keyed<V>,
    pub key2: Keyed<V>,
    pub previous: Option<u32>,
}

// The key1 that a party tells all, and its previous key1 (none is -1).
#[derive(Clone, Copy)]
pub struct Proof<V> {
    pub key1: Keyed<V>,
    pub previous: Option<u32>,
}

// Whether a previous key is below a key; none always is.
pub fn below_key(previous: Option<u32>, key: u32) -> bool
    ensures { result ≡ below previous key }
{
    previous.is_none_or(|p| p < key)
}
