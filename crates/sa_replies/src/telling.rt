// What is told of a trace, record by record.
ghost use Rattle.std.specs.Prelude.{◌≡◌, ◌≤◌, ◌++◌, length, IfOk, OnOk};
ghost use Rattle.sa_replay.specs.Needs.{CanChange};
ghost use Rattle.sa_laws.specs.State.{space_at};
ghost use Rattle.sa_replies.specs.Telling.{opened, with_held, held_put, held_at, told_after, handed_text, runner_text, hands_text, record_text, item_text};

use crate::texts::{append_hand, append_place};
use sa_base::{ActNo, Item, Note, Record, SpaceNo, ThreadNo};
use sa_replay::{Replay, RunningThread};
use sa_spaces::Workload;
use sa_trace::append_line;
use std::alloc::{AllocError, Global};
use std::marker::Model;

/// What is known of a trace so far for the lines that are told of its records.
pub struct Teller {
    replay: Replay,
    // of each activation by its number: the thread with which it was last stopped or unblocked
    held: Vec<Option<RunningThread>>,
}

impl Model for Teller {
    ghost use Rattle.sa_replies.specs.Telling.{Telling};

    ghost Value = { Telling };

    ghost view = { λ t. record { replay = t.replay; held = t.held.items } };
}

impl Teller {
    /// Before any record of a trace of this workload. Fails only where memory runs out.
    pub fn start(alloc: Global, workload: &Workload) -> Result<Teller, AllocError>
        ensures { IfOk result (λ teller. teller ≡ opened workload.now) }
    {
        let replay = Replay::start(alloc, workload)?;
        let held = Vec::new(alloc);
        Ok(Teller { replay, held })
    }

    /// Lets go of the teller, with its replay.
    pub fn discard(self) {
        let Teller { replay, held: _ } = self;
        replay.discard();
    }

    /// How many threads of the space were made; at most 512.
    pub fn made(&self, s: SpaceNo) -> u16
        ensures { result ≡ length (space_at self.now.replay.state s).threads }
    {
        self.replay.made(s)
    }

    /// Takes the next item of the trace, and appends its line with what is told of it. An error is want of memory.
    pub fn tell(&mut self, item: &Item, out: &mut Vec<u8>) -> Result<(), AllocError>
        requires { CanChange self.old.replay.workload item.now.proc self.old.replay.state item.now.what }
        ensures told { OnOk result (self.new ≡ told_after self.old item.now) }
        ensures text { OnOk result (out.new.items ≡ out.old.items ++ item_text self.new item.now) }
    {
        append_line(out, item)?;
        self.replay.change(item.proc, &item.what)?;
        self.hold(&item.what)?;
        self.append_told(&item.what, out)
    }

    // Keeps the thread of an activation that is stopped or unblocked.
    fn hold(&mut self, what: &Record) -> Result<(), AllocError>
        ensures { OnOk result (self.new ≡ record self.old { held = with_held self.old.held what.now }) }
    {
        match *what {
            Record::Stop(s, t, a) | Record::Unblock(s, t, a) => {
                put(&mut self.held, a, t.map(|t| RunningThread::new(s, t)))
            }
            _ => Ok(()),
        }
    }

    // Appends what is told of a record that was taken.
    fn append_told(&self, what: &Record, out: &mut Vec<u8>) -> Result<(), AllocError>
        ensures { OnOk result (out.new.items ≡ out.old.items ++ record_text self.now what.now) }
    {
        match *what {
            Record::Ins(s, t, _) => {
                append_place(out, s, t, self.replay.thread(s, t).place())?;
                self.append_hands(s, self.replay.roused(), out)
            }
            Record::Back(s, Some(t)) => self.append_hand(s, t, out),
            Record::Told(Note::Preempted(a) | Note::Unblocked(a)) => self.append_held(a, out),
            _ => Ok(()),
        }
    }

    // Appends the line of the thread with which an activation was stopped or unblocked, if it had one.
    fn append_held(&self, a: ActNo, out: &mut Vec<u8>) -> Result<(), AllocError>
        ensures { OnOk result (out.new.items ≡ out.old.items ++ runner_text self.now (held_at self.now.held a)) }
    {
        match self.held.get(a.0 as usize) {
            Some(Some(runner)) => self.append_hand(runner.space(), runner.thread(), out),
            _ => Ok(()),
        }
    }

    // Appends a line for each of these threads.
    fn append_hands(
        &self,
        s: SpaceNo,
        threads: &[ThreadNo],
        out: &mut Vec<u8>,
    ) -> Result<(), AllocError>
        ensures { OnOk result (out.new.items ≡ out.old.items ++ hands_text self.now s threads.now) }
    {
        for t in threads {
            self.append_hand(s, *t, out)?;
        }
        Ok(())
    }

    // Appends the line that says that the thread can be made ready.
    fn append_hand(&self, s: SpaceNo, t: ThreadNo, out: &mut Vec<u8>) -> Result<(), AllocError>
        ensures { OnOk result (out.new.items ≡ out.old.items ++ handed_text self.now s t) }
    {
        append_hand(out, s, t, self.replay.thread(s, t).program())
    }
}

// Keeps the thread of this activation.
fn put(
    held: &mut Vec<Option<RunningThread>>,
    a: ActNo,
    thread: Option<RunningThread>,
) -> Result<(), AllocError>
    ensures { OnOk result (held.new.items ≡ held_put held.old.items a thread) }
{
    let at = a.0 as usize;
    while held.len() <= at {
        held.push(None)?;
    }
    held[at] = thread;
    Ok(())
}
