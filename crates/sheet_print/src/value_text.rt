// Values written as run sheets have them.
ghost use Rattle.std.specs.Prelude.{◌≡◌, ℕ, true, List, IfOk, Some, string_bytes};
ghost use Rattle.sheet_print.specs.Shown.{block_shown, order_shown};

use sheet_fields::value_text::SheetValue;
use std::alloc::{AllocError, Global};
use values::block::Block;
use values::order::Order;
use values::value::Value;

// A trait of its own and no Display, for what it promises: the text reads back.
pub trait ValueText: SheetValue {
    // the text of a value
    ghost shows: { Self → List ℕ };

    // The text of a value. The text of an allowed value reads back as that value.
    fn to_text(&self, heap: Global) -> Result<String, AllocError>
        ensures text { IfOk result (λ s. string_bytes s ≡ shows self.now) }
        ensures back { Self.Value.allows (Self.Value.bytes self.now) ≡ true → Self.SheetValue.reads (shows self.now) ≡ Some (Self.Value.bytes self.now) };
}

impl ValueText for Block {
    ghost shows = { block_shown };

    fn to_text(&self, heap: Global) -> Result<String, AllocError> {
        let Block {
            first,
            count,
            party,
        } = *self;
        format!(in heap; "{first},{count},{party}")
    }
}

impl ValueText for Order {
    ghost shows = { order_shown };

    fn to_text(&self, heap: Global) -> Result<String, AllocError> {
        match self {
            Order::Blank => format!(in heap; "-"),
            Order::Hold => format!(in heap; "hold"),
            Order::Resume => format!(in heap; "resume"),
            Order::Pace(rate) => format!(in heap; "pace,{}", rate.number()),
        }
    }
}
