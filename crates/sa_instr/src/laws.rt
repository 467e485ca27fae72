// What holds of the local effect and of instructions, whichever they are: each contract is a law, and the bodies do
// nothing.
ghost use Rattle.sa_instr.specs.Laws.{PlacesStayInPrograms, RegistersStayWords, SubUndoesAdd, AddUndoesSub, PartsMakeTheInstr, InstrsHaveTheParts, FittingPartsMakeInstrs, WordsDiffer};

/// A thread stays within its program, and its registers stay eight numbers of 64 bits.
pub fn threads_stay_within()
    ensures places { PlacesStayInPrograms }
    ensures registers { RegistersStayWords }
{}

/// Adding and taking away undo each other, whatever wraps.
pub fn sums_are_undone()
    ensures sub { SubUndoesAdd }
    ensures add { AddUndoesSub }
{}

/// An instruction and its operation and operands undo each other, and an operation with operands that
/// fit it is an instruction's.
pub fn parts_are_the_instr()
    ensures made { PartsMakeTheInstr }
    ensures parts { InstrsHaveTheParts }
    ensures fit { FittingPartsMakeInstrs }
{}

/// No two operations have one word.
pub fn words_differ()
    ensures { WordsDiffer }
{}
