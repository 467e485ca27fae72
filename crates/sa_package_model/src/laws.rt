//! What holds of each step. No function here does anything.
ghost use Rattle.sa_package_model.specs.Laws.{StepsAskWhatCanBeDone, StepsSayTheirOwn};

/// What a step asks for the kernel can do: the block is in its range, the hint asks for processors that there are, there
/// is demand to lower, and there are activations to give back.
pub fn steps_ask_what_can_be_done()
    ensures { StepsAskWhatCanBeDone }
{}

/// A step adds two records at most, and all of them are of the package's own space.
pub fn steps_say_their_own()
    ensures { StepsSayTheirOwn }
{}
