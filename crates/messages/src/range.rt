// The range of every field of a message, by kind: a used field within its bounds, an unused one
// 0 or blank. Kinds are numbers here: a message at hand may carry any, and a type of eleven kinds would ask more.
ghost use Rattle.std.specs.Prelude.{◌≡◌};
ghost use Rattle.messages.specs.Meaning.{message};
ghost use Rattle.messages.specs.Messages.{in_range, is_party, view_fits, key_fits, earlier_fits, value_fits, uses_view, uses_key, uses_value, uses_second, uses_previous};

use crate::message::Message;
use values::limits::MOST_PARTIES;
use values::value::Value;

// The last view, and the largest key.
pub const LAST_VIEW: u32 = 2_000_000_000;

// Whether a number can be a party's.
pub fn is_party(p: u8) -> bool
    ensures { result ≡ is_party p }
{
    matches!(p, 1..=MOST_PARTIES)
}

// Whether a view is in range for a kind. An abort leaves a view to follow it.
pub fn view_fits(kind: u8, view: u32) -> bool
    ensures { result ≡ view_fits kind view }
{
    match kind {
        1..=9 => matches!(view, 1..=LAST_VIEW),
        11 => matches!(view, 1..LAST_VIEW),
        _ => view == 0,
    }
}

// Whether a key is in range, used or not: as the definitions have it, one test with whether the kind uses the field.
pub fn key_fits(used: bool, key: u32) -> bool
    ensures { result ≡ key_fits used key }
{
    if used { key <= LAST_VIEW } else { key == 0 }
}

// Whether a previous key is in range, used or not. None stands for -1.
pub fn previous_fits(used: bool, previous: Option<u32>) -> bool
    ensures { result ≡ earlier_fits used previous }
{
    previous.map_or(used, |p| key_fits(used, p))
}

// Whether a value may stand in a field: only the blank where the field is not used.
pub fn value_fits<V: Value>(used: bool, value: &V) -> bool
    ensures { result ≡ value_fits V.valid V.width used (V.bytes value.now) }
{
    used || value.same(&V::blank())
}

// Whether a kind uses a key.
pub(crate) fn uses_key(kind: u8) -> bool
    ensures { result ≡ uses_key kind }
{
    matches!(kind, 2..=4)
}

// Whether a kind uses a previous key.
pub(crate) fn uses_previous(kind: u8) -> bool
    ensures { result ≡ uses_previous kind }
{
    matches!(kind, 2 | 3)
}

// Whether a kind uses a value.
pub(crate) fn uses_value(kind: u8) -> bool
    ensures { result ≡ uses_value kind }
{
    matches!(kind, 2..=10)
}

// Whether a kind uses a second key and a second value.
pub(crate) fn uses_second(kind: u8) -> bool
    ensures { result ≡ uses_second kind }
{
    kind == 2
}

// Whether every field of a message is in range.
pub fn in_range<V: Value>(m: &Message<V>) -> bool
    ensures { result ≡ in_range V.valid V.width (message V.bytes m.now) }
{
    let second = uses_second(m.kind);
    matches!(m.kind, 1..=11)
        && is_party(m.from)
        && is_party(m.to)
        && view_fits(m.kind, m.view)
        && key_fits(uses_key(m.kind), m.key)
        && key_fits(second, m.second_key)
        && previous_fits(uses_previous(m.kind), m.previous)
        && value_fits(uses_value(m.kind), &m.value)
        && value_fits(second, &m.second_value)
}
