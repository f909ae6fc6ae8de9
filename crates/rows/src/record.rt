// What a party keeps of its own.
ghost use Rattle.std.specs.Prelude.{◌≡◌};
ghost use Rattle.rules.specs.Step.{newcomer};
ghost use Rattle.rows.specs.Meaning.{record_of};

use crate::keys::{Keyed, Proof, Suggest};
use values::value::Value;

// The proposal of the present view: four states of the rules, of which nothing is the first. A waiting one keeps its value, and so does an echoed one.
#[derive(Clone, Copy)]
pub enum Proposal<V> {
    Nothing,
    Waiting(V),
    Echoed(V),
    Dropped,
}

#[derive(Clone, Copy)]
pub struct Record<V> {
    pub view: u32,
    pub lock: Keyed<V>,
    pub key1: Keyed<V>,
    pub key2: Keyed<V>,
    pub key3: Keyed<V>,
    // the key before the last change of value; none is -1
    pub previous_key1: Option<u32>,
    pub previous_key2: Option<u32>,
    pub decision: Option<V>,
    // the value of the one done that was sent
    pub done: Option<V>,
    // fixed on entering the view
    pub suggest: Suggest<V>,
    pub proof: Proof<V>,
    // the propose that was made in this view
    pub offer: Option<Keyed<V>>,
    pub proposal: Proposal<V>,
}

impl<V: Value> Record<V> {
    // The record before the first view: no lock and no key, and the party's own value for each.
    pub fn new(value: &V) -> Record<V>
        ensures { record_of V.bytes result ≡ (newcomer (V.bytes value.now)).rec }
    {
        let never = Keyed {
            at: 0,
            value: *value,
        };
        Record {
            view: 1,
            lock: never,
            key1: never,
            key2: never,
            key3: never,
            previous_key1: None,
            previous_key2: None,
            decision: None,
            done: None,
            suggest: Suggest {
                key3: never,
                key2: never,
                previous: None,
            },
            proof: Proof {
                key1: never,
                previous: None,
            },
            offer: None,
            proposal: Proposal::Nothing,
        }
    }
}
