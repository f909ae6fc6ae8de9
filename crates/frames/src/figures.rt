// Figures of the rules: limits of blocks and orders, and one frame byte for byte.
ghost use Rattle.frames.specs.Figures.{Figures};

// The figures hold of the definitions that the calls promise.
pub fn figures_stand()
    ensures { Figures }
{}
