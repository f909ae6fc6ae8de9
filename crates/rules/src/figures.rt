// The worked figures of the rules, shown of the definitions that every step uses.
ghost use Rattle.rules.specs.Figures.{Figures};

// All the figures hold. There is nothing to run; what counts is the contract.
pub fn figures_hold()
    ensures { Figures }
{}
