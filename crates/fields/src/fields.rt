// The fields of a record.
ghost use Rattle.std.specs.Prelude.{◌≡◌, ℕ};
ghost use Rattle.rules.specs.Party.{Setting};
ghost use Rattle.rules.specs.Step.{entered, moved};
ghost use Rattle.rows.specs.Meaning.{keyed_of, record_of};
ghost use Rattle.rows.specs.Votes.{field_number};

use rows::keys::{Keyed, Proof, Suggest};
use rows::record::{Proposal, Record};
use rows::vote::Field;
use values::value::Value;

// One field.
pub fn field<V: Value>(own: &Record<V>, which: Field) -> Keyed<V>
    ensures { keyed_of V.bytes result ≡ (record_of V.bytes own.now).field (field_number which) }
{
    match which {
        Field::Key1 => own.key1,
        Field::Key2 => own.key2,
        Field::Key3 => own.key3,
        Field::Lock => own.lock,
    }
}

// The field moves to the view with this value. Where key1 or key2 changes its value, the old key becomes previous.
pub fn move_field<V: Value>(own: &mut Record<V>, which: Field, value: &V)
    ensures { (g : Setting) (me : ℕ) → record_of V.bytes own.new ≡ moved g me (record_of V.bytes own.old) (field_number which) (V.bytes value.now) }
{
    let moved = Keyed {
        at: own.view,
        value: *value,
    };
    match which {
        Field::Key1 => {
            if !own.key1.value.same(value) {
                own.previous_key1 = Some(own.key1.at);
            }
            own.key1 = moved;
        }
        Field::Key2 => {
            if !own.key2.value.same(value) {
                own.previous_key2 = Some(own.key2.at);
            }
            own.key2 = moved;
        }
        Field::Key3 => own.key3 = moved,
        Field::Lock => own.lock = moved,
    }
}

// Enters a view: the contents of suggest and proof are fixed here, from what the earlier views left.
pub fn enter_view<V: Value>(own: &mut Record<V>, view: u32)
    ensures { (g : Setting) (me : ℕ) → record_of V.bytes own.new ≡ entered g me (record_of V.bytes own.old) view }
{
    own.view = view;
    own.suggest = Suggest {
        key3: own.key3,
        key2: own.key2,
        previous: own.previous_key2,
    };
    own.proof = Proof {
        key1: own.key1,
        previous: own.previous_key1,
    };
    own.offer = None;
    own.proposal = Proposal::Nothing;
}
