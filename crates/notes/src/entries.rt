// The rows by sender, counted from 1: each is read and written whole.
ghost use Rattle.std.specs.Prelude.{◌≡◌, ◌≤◌, length};
ghost use Rattle.rules.specs.Counting.{upd};
ghost use Rattle.rows.specs.Meaning.{row_of, rows_of};

use rows::row::Row;
use values::value::Value;

// The row of a sender.
pub fn row_from<V: Value>(rows: &[Row<V>], from: u8) -> Row<V>
    requires { (1 ≤ from) × (from ≤ length rows.now) }
    ensures { row_of V.bytes result ≡ rows_of V.bytes rows.now from }
{
    rows[from as usize - 1]
}

// Writes the row of a sender, and no other.
pub fn put_row<V: Value>(rows: &mut [Row<V>], from: u8, row: &Row<V>)
    requires { (1 ≤ from) × (from ≤ length rows.old) }
    ensures { rows_of V.bytes rows.new ≡ upd (rows_of V.bytes rows.old) from (row_of V.bytes row.now) }
{
    let i = from as usize - 1;
    rows[i] = *row;
}
