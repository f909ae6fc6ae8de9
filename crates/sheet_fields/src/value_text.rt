// A kind of value with a text in run sheets.
ghost use Rattle.std.specs.Prelude.{◌≡◌, ℕ, List, Option};
ghost use Rattle.sheet_fields.specs.Cuts.{understood_as};

use crate::fault::FieldFault;
use values::value::Value;

pub trait SheetValue: Value {
    // the bytes of the value that a text writes, if it writes one
    ghost reads: { List ℕ → Option (List ℕ) };

    // The value that a text writes.
    fn read_text(s: &[u8]) -> Result<Self, FieldFault>
        ensures { understood_as Self.Value.bytes result ≡ reads s.now };
}
