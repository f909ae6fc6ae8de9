// A message is taken out, and nobody gets it.
ghost use Rattle.std.specs.Prelude.{◌≡◌};
ghost use Rattle.agreement.specs.Ring as model;
ghost use Rattle.agreement.specs.Ring.{rewired};
ghost use Rattle.agreement.specs.Calls.{Gives};
ghost use Rattle.agreement.specs.Runs.{obey, lose};
ghost use Rattle.tables.specs.Meaning.{answer_of};
ghost use Rattle.turns.specs.Meaning.{kind_of};

use tables::refusal::Refusal;
use values::value::Value;
use wires::wire::Wire;

// Takes out the message at a place, and answers 0. It is the same over every ring with this wire.
pub fn discard<V: Value, W: Wire<V>>(wire: &mut W, place: usize) -> Result<usize, Refusal>
    ensures { (s : model.Ring) → Gives (obey (kind_of V.width V.valid V.allows) (rewired s (W.waiting wire.old) (W.capacity wire.old)) (lose place)) (answer_of result) (rewired s (W.waiting wire.new) (W.capacity wire.new)) }
{
    let _lost = wire.take_out(place)?;
    Ok(0)
}
