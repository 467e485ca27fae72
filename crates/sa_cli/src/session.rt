// A debugging session of FastThreads by a script: its replies, and the trace of its machine.
ghost use Rattle.std.specs.Prelude.{◌≤◌, All, IfOk, IfErr};
ghost use Rattle.sa_debug.specs.script.Text.{FitsCommand};
ghost use Rattle.sa_cli.specs.Debugged.{IsOver, RanSoFar, IsDebugged, IsUndebugged};

use crate::replies::do_all;
use sa_base::{Bad, End, MAX_EVENTS, Trace, Unread};
use sa_core::Core;
use sa_debug::laws::scripts_are_read;
use sa_debug::{DebugCommand, Session, read_script};
use sa_package::FastThreads;
use sa_package_runs::sessions::{
    fast_threads_can_be_debugged, sessions_are_legal, sessions_are_told,
};
use sa_replay::Replay;
use sa_spaces::Workload;
use std::alloc::Global;

/// A session that is over.
#[derive(Drop)]
pub(crate) struct Debugged {
    /// The texts of the replies, one after another, each with its line feed.
    pub replies: Vec<u8>,
    pub trace: Trace,
    /// How the run ended; `Budget` where it had no end.
    pub end: End,
    /// The number of its last event, at most 1,000,000.
    pub events: u64,
}

/// Why a session is not over.
#[derive(Drop)]
pub(crate) enum Undebugged {
    /// The bytes are no script for this workload; nothing ran.
    BadScript(Bad),
    /// Memory ran out, with the trace so far.
    OutOfMemory(Trace),
}

/// Does the commands of a script with a machine of the workload, within `budget` events, 1 to 1,000,000. The script is read
/// whole before anything runs.
pub(crate) fn debug(
    alloc: Global,
    workload: Workload,
    script: &[u8],
    budget: u64,
) -> Result<Debugged, Undebugged>
    requires some { 1 ≤ budget }
    requires few { budget ≤ MAX_EVENTS }
    ensures ok { IfOk result (λ x. IsDebugged workload budget script.now
        x.replies.items x.trace.items x.end x.events) }
    ensures err { IfErr result (IsUndebugged workload budget script.now) }
{
    scripts_are_read();
    workload.ranges();
    match read_script(alloc, script, &workload) {
        Ok(commands) => {
            let done = do_script(alloc, workload, commands.commands(), budget);
            done.map_err(Undebugged::OutOfMemory)
        }
        Err(Unread::Bad(bad)) => Err(Undebugged::BadScript(bad)),
        Err(Unread::OutOfMemory) => Err(Undebugged::OutOfMemory(Trace::new(alloc))),
    }
}

// Does the commands. Where memory runs out it answers the trace so far.
fn do_script(
    alloc: Global,
    workload: Workload,
    commands: &[DebugCommand],
    budget: u64,
) -> Result<Debugged, Trace>
    requires some { 1 ≤ budget }
    requires few { budget ≤ MAX_EVENTS }
    requires fit { All (FitsCommand workload) commands.now }
    ensures ok { IfOk result (λ x.
        IsOver workload budget commands.now x.replies.items x.trace.items x.end x.events) }
    ensures err { IfErr result (λ trace. RanSoFar workload budget commands.now trace.items) }
{
    fast_threads_can_be_debugged();
    sessions_are_legal();
    sessions_are_told();
    workload.ranges();
    let Ok(replay) = Replay::start(alloc, &workload) else {
        return Err(Trace::new(alloc));
    };
    let Ok(core) = Core::<FastThreads>::start(alloc, workload, budget) else {
        replay.discard();
        return Err(Trace::new(alloc));
    };
    let mut session = Session::start(alloc, core, replay);
    let Ok(replies) = do_all(alloc, &mut session, commands) else {
        return Err(session.into_trace());
    };
    let end = session.end().unwrap_or(End::Budget);
    let events = session.events();
    Ok(Debugged {
        replies,
        trace: session.into_trace(),
        end,
        events,
    })
}
