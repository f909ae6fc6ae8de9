// Entering a view: what the rows keep of the views before.
ghost use Rattle.std.specs.Prelude.{◌≡◌};
ghost use Rattle.rules.specs.Party.{cleared};
ghost use Rattle.rows.specs.Meaning.{rows_of};

use rows::row::Row;
use values::value::Value;

// Empties every row of what belongs to a view.
pub fn clear_rows<V: Value>(rows: &mut [Row<V>])
    ensures { rows_of V.bytes rows.new ≡ (λ j. cleared (rows_of V.bytes rows.old j)) }
{
    let empty = Row::empty();
    for row in rows.iter_mut() {
        *row = Row {
            request: row.request,
            abort: row.abort,
            done: row.done,
            ..empty
        };
    }
}
