// What the turns of a schedule are: the contract is the law, and the body does nothing.
ghost use Rattle.sa_sched.specs.Laws.{TurnsAreInOrder};

/// The k-th call of `next` on a new schedule gives the k-th processor of its order.
pub fn turns_are_in_order()
    ensures { TurnsAreInOrder }
{}
