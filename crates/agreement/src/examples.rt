// What the counts are worth. Each is what its contract says; there is nothing to run.
ghost use Rattle.agreement.specs.Examples.{AloneDecides, AsBegun, FourDecide, HastyShutOut, MuteShutOut, StutterShutOut};

// A party alone decides its own value in ten steps, and then nothing waits.
pub fn all_decide_in_a_ring_of_one()
    ensures { AloneDecides }
{}

// Three honest parties with different values decide one of them, though a fourth lies to them.
pub fn all_decide_in_a_ring_of_four()
    ensures { FourDecide }
{}

// The first steps that the examples below change are, left alone, those of set-up.
pub fn first_steps_are_those_of_set_up()
    ensures one { AsBegun 1 }
    ensures two { AsBegun 2 }
{}

// Parties that decide their own values at once do not agree.
pub fn deciding_at_once_is_shut_out()
    ensures { HastyShutOut }
{}

// A party that posts nothing is left undecided.
pub fn posting_nothing_is_shut_out()
    ensures { MuteShutOut }
{}

// A party that posts everything twice says something twice.
pub fn posting_twice_is_shut_out()
    ensures { StutterShutOut }
{}
