// What a party keeps of one sender. All but request, abort and done is of the present view.
ghost use Rattle.std.specs.Prelude.{◌≡◌};
ghost use Rattle.rules.specs.Step.{empty_row};
ghost use Rattle.rows.specs.Meaning.{row_of};

use crate::keys::{Proof, Suggest};
use values::value::Value;

#[derive(Clone, Copy)]
pub struct Row<V> {
    // the highest view asked for, and the highest given up
    pub request: u32,
    pub abort: u32,
    // the first of each kind
    pub done: Option<V>,
    pub suggest: Option<Suggest<V>>,
    pub proof: Option<Proof<V>>,
    pub echo: Option<V>,
    pub key1: Option<V>,
    pub key2: Option<V>,
    pub key3: Option<V>,
    pub lock: Option<V>,
}

impl<V: Value> Row<V> {
    // Nothing heard from the sender yet.
    pub fn empty() -> Row<V>
        ensures { row_of V.bytes result ≡ empty_row }
    {
        Row {
            request: 0,
            abort: 0,
            done: None,
            suggest: None,
            proof: None,
            echo: None,
            key1: None,
            key2: None,
            key3: None,
            lock: None,
        }
    }
}
