// The argument as a contract: without its proof this crate does not pass.
ghost use Rattle.agreement.specs.Counts.{CountsHold};

// Of every shift, after set-up and after each call, whatever the faulty parties send: honest
// parties decide at most one value and it is allowed; nobody honest is left undecided once the
// honest messages are through and the undecided share a view with an honest primary; and of one
// kind and view an honest party posts at most one message to a party.
pub fn counts_hold()
    ensures { CountsHold }
{}
