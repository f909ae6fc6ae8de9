// A wire: a list of waiting messages, each in range, and a capacity that never changes.
ghost use Rattle.std.specs.Prelude.{◌≡◌, ℕ, ◌≤◌, true, List, length, is_ok, IfOk};
ghost use Rattle.std.specs.List.{AllByRecursion};
ghost use Rattle.messages.specs.Messages.{Msg, in_range};
ghost use Rattle.messages.specs.Meaning.{message};
ghost use Rattle.wires.specs.Wire.{answer, room_left, has_place, looked, taken, may_post, post_answer, posted};

use crate::fault::WireFault;
use messages::message::Message;
use values::value::Value;

pub trait Wire<V: Value> {
    // the messages that wait, first posted first
    ghost waiting: { Self → List Msg };

    // how many messages the wire holds at most
    ghost capacity: { Self → ℕ };

    // How many messages wait: no more than the capacity, and each in range.
    fn count(&self) -> usize
        ensures value { result ≡ length (waiting self.now) }
        ensures within { length (waiting self.now) ≤ capacity self.now }
        ensures ranged { AllByRecursion (λ m. in_range V.Value.valid V.Value.width m ≡ true) (waiting self.now) };

    // How many more messages fit.
    fn room(&self) -> usize
        ensures { result ≡ room_left (capacity self.now) (waiting self.now) };

    // The message at place `i`, counted from 0. It is in range.
    fn look(&self, i: usize) -> Result<Message<V>, WireFault>
        ensures test { is_ok result ≡ has_place (waiting self.now) i }
        ensures value { answer (message V.Value.bytes) result ≡ looked (waiting self.now) i }
        ensures ranged { IfOk result (λ m. in_range V.Value.valid V.Value.width (message V.Value.bytes m) ≡ true) };

    // Adds a message at the end. A refusal leaves the wire as it was.
    fn post(&mut self, m: &Message<V>) -> Result<(), WireFault>
        ensures kept { capacity self.new ≡ capacity self.old }
        ensures test { is_ok result ≡ may_post V.Value.valid V.Value.width (capacity self.old) (waiting self.old) (message V.Value.bytes m.now) }
        ensures value { answer (λ u. u) result ≡ post_answer V.Value.valid V.Value.width (capacity self.old) (waiting self.old) (message V.Value.bytes m.now) }
        ensures after { waiting self.new ≡ posted V.Value.valid V.Value.width (capacity self.old) (waiting self.old) (message V.Value.bytes m.now) };

    // Takes out the message at place `i`; the later ones move up. A refusal leaves the wire as it was.
    fn take_out(&mut self, i: usize) -> Result<Message<V>, WireFault>
        ensures kept { capacity self.new ≡ capacity self.old }
        ensures test { is_ok result ≡ has_place (waiting self.old) i }
        ensures value { answer (message V.Value.bytes) result ≡ looked (waiting self.old) i }
        ensures ranged { IfOk result (λ m. in_range V.Value.valid V.Value.width (message V.Value.bytes m) ≡ true) }
        ensures after { waiting self.new ≡ taken (waiting self.old) i };

    // no more messages wait than the wire holds
    ghost held: { (w : Self) → length (waiting w) ≤ capacity w };

    // each waiting message is in range
    ghost fair: { (w : Self) → AllByRecursion (λ m. in_range V.Value.valid V.Value.width m ≡ true) (waiting w) };
}
