// What holds of the kernel as a value, whatever its callers do: each contract is a law, and the bodies do nothing.
ghost use Rattle.sa_kernel_laws.specs.Facts.{OwnersRun, LowBitsSayWhere, LowBitsAreFew, QuietSaysSo, ToldContextsAreHeld, NotesAreHandedOut, NoticesWaitRightly, OwedIsEnough, TakenIsPending};

/// Where a space owns a processor, an activation of it runs there.
pub fn owners_run<C: Drop>()
    ensures { OwnersRun C }
{}

/// Bit q of what a space sees of low lines says that it owns processor q, whose line is low.
pub fn low_bits_say_where<C: Drop>()
    ensures bits { LowBitsSayWhere C }
    ensures few { LowBitsAreFew C }
{}

/// The kernel is quiet exactly where nothing is under way, all lines are low, and no space waits to be told of a
/// context that was not idle.
pub fn quiet_says_so<C: Drop>()
    ensures { QuietSaysSo C }
{}

/// Calls of `next_note` answer exactly what was told, in order, with the contexts that were saved; each notice that
/// hands one over is of the space that was told.
pub fn notes_are_handed_out<C: Drop>()
    ensures held { ToldContextsAreHeld C }
    ensures order { NotesAreHandedOut C }
{}

/// After the closing of an event a notice waits only where its space owns no processor, or its upcall page is being
/// fetched, or the line of one that it owns is raised.
pub fn notices_wait_rightly<C: Drop>()
    ensures { NoticesWaitRightly C }
{}

/// The room for an entry and for what is owed is no less than what `need` answers; and of the activations that are
/// taken of a space there are no more than notices are on their way.
pub fn owed_is_enough<C: Drop>()
    ensures need { OwedIsEnough C }
    ensures taken { TakenIsPending C }
{}
