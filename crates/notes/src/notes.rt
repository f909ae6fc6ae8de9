// What a message leaves in its sender's row.
// A row is read and written whole: a field written in place owes the bounds of a generic row in each function.
ghost use Rattle.std.specs.Prelude.{◌≡◌, ◌≤◌, length};
ghost use Rattle.rules.specs.Counting.{upd};
ghost use Rattle.rules.specs.Party.{with_request, with_abort, with_told, with_suggest, with_proof, with_vote};
ghost use Rattle.rows.specs.Meaning.{row_of, rows_of, suggest_of, proof_of};
ghost use Rattle.rows.specs.Votes.{vote_number};

use crate::entries::{put_row, row_from};
use rows::keys::{Proof, Suggest};
use rows::row::Row;
use rows::vote::Vote;
use values::value::Value;

// The sender's highest request.
pub fn note_request<V: Value>(rows: &mut [Row<V>], from: u8, view: u32)
    requires { (1 ≤ from) × (from ≤ length rows.old) }
    ensures { rows_of V.bytes rows.new ≡ upd (rows_of V.bytes rows.old) from (with_request (rows_of V.bytes rows.old from) view) }
{
    let row = row_from(rows, from);
    put_row(
        rows,
        from,
        &Row {
            request: view,
            ..row
        },
    );
}

// The sender's highest abort.
pub fn note_abort<V: Value>(rows: &mut [Row<V>], from: u8, view: u32)
    requires { (1 ≤ from) × (from ≤ length rows.old) }
    ensures { rows_of V.bytes rows.new ≡ upd (rows_of V.bytes rows.old) from (with_abort (rows_of V.bytes rows.old from) view) }
{
    let row = row_from(rows, from);
    put_row(rows, from, &Row { abort: view, ..row });
}

// The sender's done.
pub fn note_done<V: Value>(rows: &mut [Row<V>], from: u8, value: &V)
    requires { (1 ≤ from) × (from ≤ length rows.old) }
    ensures { rows_of V.bytes rows.new ≡ upd (rows_of V.bytes rows.old) from (with_told (rows_of V.bytes rows.old from) (V.bytes value.now)) }
{
    let row = row_from(rows, from);
    put_row(
        rows,
        from,
        &Row {
            done: Some(*value),
            ..row
        },
    );
}

// The sender's suggest of this view.
pub fn note_suggest<V: Value>(rows: &mut [Row<V>], from: u8, suggest: &Suggest<V>)
    requires { (1 ≤ from) × (from ≤ length rows.old) }
    ensures { rows_of V.bytes rows.new ≡ upd (rows_of V.bytes rows.old) from (with_suggest (rows_of V.bytes rows.old from) (suggest_of V.bytes suggest.now)) }
{
    let row = row_from(rows, from);
    put_row(
        rows,
        from,
        &Row {
            suggest: Some(*suggest),
            ..row
        },
    );
}

// The sender's proof of this view.
pub fn note_proof<V: Value>(rows: &mut [Row<V>], from: u8, proof: &Proof<V>)
    requires { (1 ≤ from) × (from ≤ length rows.old) }
    ensures { rows_of V.bytes rows.new ≡ upd (rows_of V.bytes rows.old) from (with_proof (rows_of V.bytes rows.old from) (proof_of V.bytes proof.now)) }
{
    let row = row_from(rows, from);
    put_row(
        rows,
        from,
        &Row {
            proof: Some(*proof),
            ..row
        },
    );
}

// Written by a match here, read by one in the claims and by number where a message is heeded: one use each.
// The row with a vote.
fn voted_row<V: Value>(row: Row<V>, vote: Vote, value: &V) -> Row<V>
    ensures { row_of V.bytes result ≡ with_vote (row_of V.bytes row) (vote_number vote) (V.bytes value.now) }
{
    let voted = Some(*value);
    match vote {
        Vote::Echo => Row { echo: voted, ..row },
        Vote::Key1 => Row { key1: voted, ..row },
        Vote::Key2 => Row { key2: voted, ..row },
        Vote::Key3 => Row { key3: voted, ..row },
        Vote::Lock => Row { lock: voted, ..row },
    }
}

// The sender's vote in this view.
pub fn note_vote<V: Value>(rows: &mut [Row<V>], from: u8, vote: Vote, value: &V)
    requires { (1 ≤ from) × (from ≤ length rows.old) }
    ensures { rows_of V.bytes rows.new ≡ upd (rows_of V.bytes rows.old) from (with_vote (rows_of V.bytes rows.old from) (vote_number vote) (V.bytes value.now)) }
{
    let row = row_from(rows, from);
    put_row(rows, from, &voted_row(row, vote, value));
}
