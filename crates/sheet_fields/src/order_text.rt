// Orders as texts of a run sheet: `hold`, `resume`, or `pace,` and a number.
ghost use Rattle.std.specs.Prelude.{◌≡◌};
ghost use Rattle.values.specs.Orders.{order_bytes};
ghost use Rattle.sheet_fields.specs.Cuts.{understood_as};
ghost use Rattle.sheet_fields.specs.Texts.{pace_text, order_text};

use crate::cuts::cut;
use crate::fault::FieldFault;
use crate::parties::read_between;
use crate::texts::is_text;
use crate::value_text::SheetValue;
use values::order::Order;
use values::rate::Rate;

// `pace,` and a number from 1 to 600.
fn read_pace(s: &[u8]) -> Result<Order, FieldFault>
    ensures { understood_as order_bytes result ≡ pace_text s.now }
{
    let halves = cut(s, b',').ok_or(FieldFault::UnknownText)?;
    if !is_text(halves.front, b"pace") {
        return Err(FieldFault::UnknownText);
    }
    let n = read_between(halves.rest, 1, 600)?;
    Rate::new(n as u16)
        .map(Order::Pace)
        .ok_or(FieldFault::TooLarge)
}

impl SheetValue for Order {
    ghost reads = { order_text };

    fn read_text(s: &[u8]) -> Result<Order, FieldFault> {
        if is_text(s, b"hold") {
            return Ok(Order::Hold);
        }
        if is_text(s, b"resume") {
            return Ok(Order::Resume);
        }
        read_pace(s)
    }
}
