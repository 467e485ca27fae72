// The trait of user levels.
ghost use Rattle.std.specs.Prelude.{◌≡◌, ◌+◌, ◌≤◌, ◌++◌, IfOk, length};
ghost use Rattle.sa_base.specs.Items.{items_at, items_from};
ghost use Rattle.sa_abstract.specs.Calls.{Calls};
ghost use Rattle.sa_abstract.specs.Setting.{Setting, IsSetting};
ghost use Rattle.sa_abstract.specs.Keeps.{Standing, IsBefore, IsOf, IsSeenOf, IsTelling, IsStep, IsGoing, Keeps};

use crate::answer::{SeatState, Step, Tally};
use sa_base::{Note, ProcNo, Seen, SpaceNo, Stopped, ThreadNo, Trace};
use sa_spaces::SpaceDef;
use std::alloc::{AllocError, Global};
use std::marker::Send;

/// The user level of one address space: it decides which of its threads run on the processors that the kernel gives it.
///
/// A context is what one activation runs. The kernel makes an activation by an upcall, in which the user level begins a
/// context and is told what happened; it stops or blocks one at any point, and hands its context over in a later upcall.
pub trait UserLevel: Sized + Drop + Send {
    /// What an activation runs.
    type Ctx: Drop + Send;

    /// What each call does.
    ghost calls: { Calls Self Self.Ctx };

    /// The value and the contexts of its space's activations stand so in a space of this setting, up to this event.
    ghost stands: { Standing Self Self.Ctx };

    /// The user level of a space: thread 0 is ready, and nothing runs. Fails only where memory runs out. No other call
    /// can fail so.
    fn start(
        alloc: Global,
        space: SpaceNo,
        def: SpaceDef,
        processors: u16,
        fetch: u32,
    ) -> Result<Self, AllocError>
        requires { IsSetting (record { space = space; def = def; processors = processors; fetch = fetch }) }
        ensures { let setting : Setting = record {
          space = space;
          def = def;
          processors = processors;
          fetch = fetch;
        } in IfOk result (λ user. user ≡ calls.started setting) };

    /// The context of a fresh activation.
    fn begin(&mut self, seen: &Seen) -> Self::Ctx
        requires { IsBefore stands self.old seen.now }
        ensures { (self.new, result) ≡ calls.begun self.old seen.now };

    /// The context is told a notice of its upcall. With `Preempted` and `Unblocked` comes the context that was stopped.
    fn told(&mut self, ctx: &mut Self::Ctx, note: Note, held: Option<Stopped<Self::Ctx>>)
        requires { IsTelling stands self.old ctx.old note held }
        ensures { (self.new, ctx.new) ≡ calls.told self.old ctx.old note held };

    /// The context goes on after the last notice of its upcall, or after a hint or another entry that it asked for.
    fn answered(&mut self, seen: &Seen, ctx: &mut Self::Ctx)
        requires { IsSeenOf stands self.old seen.now ctx.old }
        ensures { (self.new, ctx.new) ≡ calls.answered self.old seen.now ctx.old };

    /// One step of the context, which adds at most 4 records of its own and may ask for an entry of the kernel.
    fn step(&mut self, seen: &Seen, ctx: &mut Self::Ctx, trace: &mut Trace) -> Step
        requires room { 4 ≤ trace.old.spare }
        requires turn { IsStep stands self.old seen.now ctx.old }
        ensures user { self.new ≡ (calls.stepped self.old seen.now ctx.old).user }
        ensures ctx { ctx.new ≡ (calls.stepped self.old seen.now ctx.old).ctx }
        ensures answer { result ≡ (calls.stepped self.old seen.now ctx.old).answer }
        ensures items { let says = (calls.stepped self.old seen.now ctx.old).says in
            trace.new.items ≡ trace.old.items ++ items_at seen.now.event seen.now.proc says }
        ensures spare { let says = (calls.stepped self.old seen.now ctx.old).says in
            trace.new.spare + length says ≡ trace.old.spare };

    /// The thread that the context carries.
    fn thread(&self, ctx: &Self::Ctx) -> Option<ThreadNo>
        ensures { result ≡ calls.thread self.now ctx.now };

    /// Whether the context has no thread and nothing else to do.
    fn idle(&self, ctx: &Self::Ctx) -> bool
        ensures { result ≡ calls.idle self.now ctx.now };

    /// Whether the context is inside the package.
    fn owes(&self, ctx: &Self::Ctx) -> bool
        ensures { result ≡ calls.owes self.now ctx.now };

    /// The first list whose lock the context has, if it has one.
    fn in_section(&self, ctx: &Self::Ctx) -> Option<u16>
        ensures { result ≡ calls.in_section self.now ctx.now };

    /// Where the context is.
    fn local(&self, ctx: &Self::Ctx) -> SeatState
        requires { IsOf stands self.now ctx.now }
        ensures { result ≡ calls.local self.now ctx.now };

    /// The context's thread runs `n` local instructions, one in each event from `seen.event` on.
    fn went(&mut self, seen: &Seen, ctx: &mut Self::Ctx, n: u16, trace: &mut Trace)
        requires room { n ≤ trace.old.spare }
        requires going { IsGoing calls stands self.old seen.now ctx.old n }
        ensures user { self.new ≡ (calls.went self.old seen.now ctx.old n).user }
        ensures ctx { ctx.new ≡ (calls.went self.old seen.now ctx.old n).ctx }
        ensures items { let says = (calls.went self.old seen.now ctx.old n).says in
            trace.new.items ≡ trace.old.items ++ items_from seen.now.event seen.now.proc says }
        ensures spare { trace.new.spare + n ≡ trace.old.spare };

    /// How many threads there are.
    fn tally(&self) -> Tally
        ensures { result ≡ calls.tally self.now };

    /// The calls keep it so.
    ghost keeps: { Keeps calls stands };
}
