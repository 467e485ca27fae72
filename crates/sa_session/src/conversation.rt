// The conversation of a session: each event, and what is said and heard between events.
ghost use Rattle.std.specs.Prelude.{◌≡◌, ◌≤◌, ◌<◌, None, [], IfOk, IfErr};
ghost use Rattle.sa_base.specs.declared.limits.TheConstants.{MAX_EVENTS};
ghost use Rattle.sa_core.specs.View.{machine};
ghost use Rattle.sa_core_model.specs.End.{end_of};
ghost use Rattle.sa_core_model.specs.Run.{opening};
ghost use Rattle.sa_driven_model.specs.Step.{driven_calls};
ghost use Rattle.sa_replies.specs.Telling.{opened};
ghost use Rattle.sa_sched.specs.Kind.{order_of, AreAmong};
ghost use Rattle.sa_spaces.specs.Workload.{IsWorkload};
ghost use Rattle.sa_session.specs.Exchange.{FailsFor};
ghost use Rattle.sa_session.specs.Events.{Goes, IsLost};
ghost use Rattle.sa_session.specs.Over.{IsOver, IsClosed, CameSoFar};
ghost use Rattle.sa_session.specs.Views.{HasToldAll};

pub use crate::exchange::NoTalk;
use crate::exchange::{Exchange, Heard};
use crate::session::Session;
use crate::wrong::Wrong;
use sa_base::{End, MAX_EVENTS, ProcNo, Trace};
use sa_io::{Sink, Source};
use sa_lines_in::LineReader;
use sa_sched::laws::turns_are_in_order;
use sa_sched::{Kind, Schedule};
use sa_spaces::Workload;
use std::alloc::Global;

/// How a session is over.
#[derive(Clone, Copy)]
pub enum Close {
    /// The run ended.
    Ended(End),
    /// A reply is refused.
    Refused {
        /// The number of its line, counted from 1.
        line: u64,
        /// The first thing that is wrong with it.
        wrong: Wrong,
    },
}

/// A session that is over.
#[derive(Drop)]
pub struct Over {
    pub trace: Trace,
    /// The number of its last event, 0 to 1,000,000.
    pub events: u64,
    pub close: Close,
}

// What became of an event.
enum Went {
    // it was no step
    Alone,
    // its step did what the reply says
    Answered,
    // the reply of its step is refused
    Refused(Wrong),
}

/// Runs a session of the workload: the kernel and the machine by the order of turns within `budget` events, 1 to 1,000,000, and the
/// user levels by the replies that `lines` reads from the source. What is said is written to the sink: all of it before a read is
/// made. An error says why the session could not go on.
pub fn talk<S: Source, K: Sink>(
    alloc: Global,
    workload: Workload,
    kind: Kind,
    budget: u64,
    lines: LineReader,
    source: &mut S,
    sink: &mut K,
) -> Result<Over, NoTalk>
    requires some { 1 ≤ budget }
    requires few { budget ≤ MAX_EVENTS }
    requires among { AreAmong workload.processors (order_of kind) }
    ensures ok { IfOk result (λ over. IsOver workload (order_of kind) budget lines (S.left source.old) (S.left source.new)
        (K.taken sink.old) (K.taken sink.new) over) }
    ensures err { IfErr result (CameSoFar workload (order_of kind) budget lines (S.left source.old) (S.left source.new)
        (K.taken sink.old) (K.taken sink.new)) }
    ensures why { IfErr result (λ why. FailsFor why (S.faults source.old) (S.faults source.new) (K.faults sink.old) (K.faults sink.new)) }
    ensures reads { S.faults source.old ≤ S.faults source.new }
    ensures writes { K.faults sink.old ≤ K.faults sink.new }
{
    workload.ranges();
    let mut exchange = Exchange::new(alloc, lines);
    let mut session = Session::start(alloc, workload, budget)?;
    match session.converse(kind, &mut exchange, source, sink) {
        Ok(close) => {
            let events = session.events();
            Ok(Over {
                trace: session.into_trace(),
                events,
                close,
            })
        }
        Err(why) => {
            session.discard();
            Err(why)
        }
    }
}

impl Session {
    // Goes on from the opening until the run has ended, or a reply is refused.
    fn converse<S: Source, K: Sink>(
        &mut self,
        kind: Kind,
        exchange: &mut Exchange,
        source: &mut S,
        sink: &mut K,
    ) -> Result<Close, NoTalk>
        requires workload { IsWorkload (machine self.old.core).workload }
        requires opening { machine self.old.core ≡ opening driven_calls (machine self.old.core).workload }
        requires teller { self.old.teller ≡ opened (machine self.old.core).workload }
        requires told { self.old.told ≡ 0 }
        requires some { 1 ≤ self.old.core.budget }
        requires few { self.old.core.budget ≤ MAX_EVENTS }
        requires among { AreAmong (machine self.old.core).workload.processors (order_of kind) }
        requires said { exchange.old.said ≡ [] }
        ensures ok { IfOk result (λ close. IsClosed (machine self.old.core).workload (order_of kind) self.old.core.budget
            exchange.old.kept (S.left source.old) (S.left source.new) (K.taken sink.old) (K.taken sink.new) (machine self.new.core) close) }
        ensures err { IfErr result (CameSoFar (machine self.old.core).workload (order_of kind) self.old.core.budget
            exchange.old.kept (S.left source.old) (S.left source.new) (K.taken sink.old) (K.taken sink.new)) }
        ensures why { IfErr result (λ why. FailsFor why (S.faults source.old) (S.faults source.new) (K.faults sink.old) (K.faults sink.new)) }
        ensures reads { S.faults source.old ≤ S.faults source.new }
        ensures writes { K.faults sink.old ≤ K.faults sink.new }
    {
        turns_are_in_order();
        let mut schedule = Schedule::new(kind, self.processors());
        let mut replies = 0;
        loop {
            self.tell(&mut exchange.said)?;
            if let Some(end) = self.end() {
                exchange.write(sink)?;
                return Ok(Close::Ended(end));
            }
            match self.event(schedule.next(), exchange, source, sink)? {
                Went::Alone => {}
                Went::Answered => replies += 1,
                Went::Refused(wrong) => {
                    exchange.write(sink)?;
                    let line = replies + 1;
                    return Ok(Close::Refused { line, wrong });
                }
            }
        }
    }

    // One event of the processor: if it is a step, it is asked for, and its reply is read and done.
    fn event<S: Source, K: Sink>(
        &mut self,
        p: ProcNo,
        exchange: &mut Exchange,
        source: &mut S,
        sink: &mut K,
    ) -> Result<Went, NoTalk>
        requires within { p.0 < (machine self.old.core).workload.processors }
        requires event { (machine self.old.core).event < MAX_EVENTS }
        requires not_ended { end_of driven_calls self.old.core.budget (machine self.old.core) ≡ None }
        requires told { HasToldAll self.old }
        ensures ok { IfOk result (λ went. Goes (machine self.old.core) p exchange.old (S.left source.old) (S.left source.new)
            (K.taken sink.old) (K.taken sink.new) went exchange.new (machine self.new.core)) }
        ensures err { IfErr result (IsLost (machine self.old.core) p exchange.old (S.left source.old) (S.left source.new)
            (K.taken sink.old) (K.taken sink.new)) }
        ensures why { IfErr result (λ why. FailsFor why (S.faults source.old) (S.faults source.new) (K.faults sink.old) (K.faults sink.new)) }
        ensures reads { S.faults source.old ≤ S.faults source.new }
        ensures writes { K.faults sink.old ≤ K.faults sink.new }
        ensures teller { self.new.teller ≡ self.old.teller }
        ensures count { self.new.told ≡ self.old.told }
        ensures budget { self.new.core.budget ≡ self.old.core.budget }
    {
        let Some(question) = self.ask(p, &mut exchange.said)? else {
            self.turn(p)?;
            return Ok(Went::Alone);
        };
        let line = match exchange.hear(source, sink)? {
            Heard::Line(line) => line,
            Heard::Bad(cause) => return Ok(Went::Refused(Wrong::Bad(cause))),
        };
        if let Err(wrong) = self.answer(p, &question, line.as_slice()) {
            return Ok(Went::Refused(wrong));
        }
        self.turn(p)?;
        Ok(Went::Answered)
    }
}
