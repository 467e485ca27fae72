// What holds of the calls' definitions, whatever the state: each contract is a law, and the bodies do nothing.
ghost use Rattle.sa_sync.specs.Laws.{AnswersTellWhoWaits, QueuesAreInOrder, JoinersAreInOrder, CallsKeepOneQueue, CallsKeepNumbers};

/// An answer tells who waits: the caller waits after the call exactly where the answer is Waits, a thread that
/// waited waits no more exactly where it was woken, and for all others nothing changes.
pub fn answers_tell_who_waits()
    ensures { AnswersTellWhoWaits }
{}

/// A thread that waits comes last in its queue, and the one that came first is woken.
pub fn queues_are_in_order()
    ensures { QueuesAreInOrder }
{}

/// Those that join a thread are woken in the order in which they came.
pub fn joiners_are_in_order()
    ensures { JoinersAreInOrder }
{}

/// Each call keeps that a thread is in one queue at most.
pub fn calls_keep_one_queue()
    ensures { CallsKeepOneQueue }
{}

/// Each call keeps how many mutexes, semaphores, threads and cells there are.
pub fn calls_keep_numbers()
    ensures { CallsKeepNumbers }
{}
