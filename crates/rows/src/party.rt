// A party over its part of the lent tables.
ghost use Rattle.std.specs.Prelude.{◌≡◌, length};

use crate::record::Record;
use crate::row::Row;
use crate::seat::Seat;

// Where the party stands, its record, and a row for each sender.
#[derive(Drop)]
pub struct Party<'a, 'b, V> {
    pub seat: Seat,
    pub own: &'a mut Record<V>,
    pub rows: &'b mut [Row<V>],
    ghost whole: { length rows.now ≡ seat.n },
}
