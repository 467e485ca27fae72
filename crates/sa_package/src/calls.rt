// The other calls.
ghost use Rattle.std.specs.Prelude.{◌≡◌};
ghost use Rattle.sa_package_model.specs.Conditions.{IsThread};
ghost use Rattle.sa_package_model.specs.Context.{carried_by};
ghost use Rattle.sa_package_model.specs.Step.{answered, in_section, own_section, local_at, tally};

use crate::package::FastThreads;
use sa_abstract::{SeatState, Tally};
use sa_base::{ProcNo, Seen};
use sa_code::{Frame, Op};
use sa_package_model::{Context, ContextState};

impl FastThreads {
    /// The context goes on after the last notice of its upcall, or after an entry of the kernel that it asked for: it
    /// settles, where it is between routines. A processor that was offered as idle looks on.
    pub fn answered(&mut self, seen: &Seen, ctx: &mut Context)
        ensures { (self.new, ctx.new) ≡ answered self.old seen.now ctx.old }
    {
        if ctx.state.is_between() {
            self.settle(seen, ctx, ctx.state.thread());
        }
    }

    /// The first list whose lock the context has, if it has one.
    pub fn in_section(&self, ctx: &Context) -> Option<u16>
        ensures { result ≡ in_section self.now ctx.now }
    {
        let section = match self.own_section(ctx.state) {
            Some(frame) => Some(frame),
            None => ctx.sections.first(),
        };
        Some(section?.list.unwrap_or(ProcNo(0)).0)
    }

    // The section in which a context is, if it is in one.
    fn own_section(&self, state: ContextState) -> Option<Frame>
        ensures { result ≡ own_section self.now state }
    {
        match state {
            ContextState::Code(frame) => match self.package.shared.state.code.at(frame.pc) {
                Some(Op::Push | Op::Pop | Op::Free) => Some(frame),
                _ => None,
            },
            _ => None,
        }
    }

    /// Where the context is, as far as its processor can go on by itself.
    pub fn local(&self, ctx: &Context) -> SeatState
        requires { IsThread (carried_by ctx.now.state) }
        ensures { result ≡ local_at self.now ctx.now.state }
    {
        match ctx.state {
            ContextState::User(thread) => {
                let block = self.package.shared.threads.block(thread);
                SeatState::Local {
                    space: self.package.shared.state.space,
                    thread,
                    program: block.program,
                    pc: block.pc,
                    regs: block.regs,
                }
            }
            _ => SeatState::Away,
        }
    }

    /// How many threads there are.
    pub fn tally(&self) -> Tally
        ensures { result ≡ tally self.now }
    {
        Tally {
            made: self.package.shared.state.lists.made(),
            done: self.package.shared.threads.done(),
            active: self.package.shared.threads.active(),
        }
    }
}
