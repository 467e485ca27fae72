// What records say.
ghost use Rattle.std.specs.Prelude.{◌≡◌};
ghost use Rattle.toga_explain.specs.Tables.{record_text};

use sa_trace::Kind;

/// What the records of a kind say.
#[tactic(auto, unfolding(crate::specs::Tables::record_text))]
pub(crate) fn record_text(kind: Kind) -> &'static [u8]
    ensures { result.now ≡ record_text kind }
{
    match kind {
        Kind::Ins => b"`ins s t i`: thread t of space s ran its instruction at place i.",
        Kind::Out => b"`out s t v`: and that was an `out`, which gave v.",
        Kind::Run => b"`run s t`: thread t was taken from a ready list and runs.",
        Kind::Stop =>
            b"`stop s t a`: an interrupt stopped activation a, which carried thread t, or none if there is a dash.",
        Kind::Block =>
            b"`block s t a io`: activation a, which carried thread t or none, blocked in the kernel until its I/O or the fetch of its page is over, which has the number io.",
        Kind::Unblock =>
            b"`unblock s t a`: the I/O or fetch for which activation a blocked is over. It never goes on itself: the next upcall of space s tells of it.",
        Kind::Cont =>
            b"`cont s t`: a section of the package that was cut off goes on in its copy, with thread t or none.",
        Kind::Back =>
            b"`back s t`: the copy of a section gave control back; or, with thread priorities and no section open, thread t gave way.",
        Kind::Ready => b"`ready s t`: thread t was put into a ready list.",
        Kind::Take =>
            b"`take s l t`: the lock of ready list l was taken; the activation carried thread t or none.",
        Kind::Free =>
            b"`free s l t`: the lock of ready list l was freed; it was taken with thread t or none.",
        Kind::Up => b"`up s a`: space s got an upcall in the fresh activation a.",
        Kind::ToldAdd => b"`told add p`: the upcall says that processor p has come to the space.",
        Kind::ToldPreempted =>
            b"`told preempted a`: the upcall says that an interrupt stopped activation a, and hands over what it had.",
        Kind::ToldBlocked =>
            b"`told blocked a`: the upcall says that activation a waits for an I/O or a page.",
        Kind::ToldUnblocked =>
            b"`told unblocked a`: the upcall says that activation a waits no more, and hands over what it had.",
        Kind::Move =>
            b"`move o n`: the processor went from space o to space n; a dash is no space.",
        Kind::Want => b"`want s n`: the demand of space s is n processors from now on.",
        Kind::Aim =>
            b"`aim p s`: the policy gives processor p to space s, or to none if there is a dash. It goes there at its next turn.",
        Kind::Line =>
            b"`line p`: the interrupt line of processor p was raised: its next turn is an interrupt.",
        Kind::Fetch =>
            b"`fetch s`: the upcall page of space s is absent, and on its way from now on.",
        Kind::Fetched => b"`fetched s`: the upcall page of space s has come.",
        Kind::GiveBack => b"`giveback a`: the number a of an activation may be used again.",
        Kind::Idle => b"`idle`: the package looked at the ready lists and found no thread.",
        Kind::Spin => b"`spin l`: the lock of ready list l was held, and the turn passed.",
        Kind::Tick =>
            b"`tick`: a turn of a processor that no space owns, or on which no virtual processor is placed.",
    }
}
