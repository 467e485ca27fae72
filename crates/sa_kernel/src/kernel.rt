ghost use Rattle.std.specs.Prelude.{◌≡◌, ℕ, ◌+◌, ◌≤◌, ◌<◌, [], length, Some, IsSome, IfSome, IfOk, OnOk, OnErr};
ghost use Rattle.std.specs.Option.{option_map, option_copied};
ghost use Rattle.sa_acts.specs.Table.{held_of};
ghost use Rattle.sa_base.specs.declared.number.ActNo.{ActNo};
ghost use Rattle.sa_devices.specs.Ios.{due_of, io_at, io_no};
ghost use Rattle.sa_base.specs.Recorded.{Adds};
ghost use Rattle.sa_laws.specs.History.{Test};

use crate::parts::Parts;
use crate::seen::Lows;
use crate::start::OPENING;
use sa_assign::Assign;
use sa_base::{
    ActNo, IoNo, MAX_EVENTS, MAX_PROCESSORS, Note, ProcNo, Seen, SpaceNo, Stopped, Trace,
};
use sa_devices::Devices;
use sa_kernel_model::{ENTRY_ITEMS, Entry, Given};
use sa_spaces::Workload;
use std::alloc::{AllocError, Global};
use std::marker::Model;

/// The kernel of a machine, over contexts that it keeps and does not look into. It says who runs where, what each
/// space is to be told, and what is under way. No call but `start` and `reserve` can fail for
/// want of memory.
#[derive(Drop)]
pub struct Kernel<C: Drop> {
    parts: Parts<C>,
    // It changes at closings alone.
    lows: Lows,
    spare: usize,
    last: u64,
}

impl<C: Drop> Model for Kernel<C> {
    ghost use Rattle.sa_kernel.specs.Kept.{KernelView, IsReady};

    ghost Value = { KernelView C };

    ghost view = { λ k. record { parts = k.parts; spare = k.spare; last = k.last } };

    ghost invariant = { λ k. IsReady k.parts k.lows k.spare k.last };
}

impl<C: Drop> Kernel<C> {
    ghost use Rattle.sa_kernel.specs.Kept.{KernelView, kernel_of, scene, processors};
    ghost use Rattle.sa_kernel_model.specs.Entering.{need_of, MayEnter, upcalls};
    ghost use Rattle.sa_kernel_model.specs.State.{owner_of, life_of, line_of, untold_of, taken_of};
    ghost use Rattle.sa_kernel_model.specs.Closing.{closed, first_space};
    ghost use Rattle.sa_kernel_model.specs.Entries.{entered, next_note, after_fetch, evicted_at};
    ghost use Rattle.sa_kernel_model.specs.Opening.{opened};
    ghost use Rattle.sa_kernel_model.specs.Enters.{Enters};
    ghost use Rattle.sa_kernel_laws.specs.Histories.{IsHistory, GoesOnLawfully, KeepsHistories};
    ghost use Rattle.sa_kernel_model.specs.Sound.{IsSound, IsPrompt, AreClaimed, IsUpcalled};
    ghost use Rattle.sa_kernel_model.specs.Owed.{owed_items, pending_count};
    ghost use Rattle.sa_kernel_model.specs.Seen.{seen_of, is_quiet};

    /// The kernel at the opening of a workload, which is event 0; its items are added to the trace, which is
    /// empty. Fails only where memory runs out; the trace is then as it was, but for its room.
    pub fn start(alloc: Global, w: &Workload, trace: &mut Trace) -> Result<Self, AllocError>
        requires { trace.old.items ≡ [] }
        ensures opened { IfOk result (λ k. scene k trace.new ≡ opened w.now) }
        ensures spare { IfOk result (λ k. k.spare ≡ 0) }
        ensures last { IfOk result (λ k. k.last ≡ 0) }
        ensures owed { IfOk result (λ k. owed_items (kernel_of k) ≡ 0) }
        ensures fetched { IfOk result (λ k. (kernel_of k).telling ≡ []) }
        ensures err { OnErr result (trace.new.items ≡ []) }

        // The trace is the opening's, and a history of which the kernel's laws hold.
        ensures lawful { IfOk result (λ k. (test : Test) → IsHistory test w.now [] (scene k trace.new)) }
    {
        w.ranges();
        trace.reserve(OPENING)?;
        let mut parts = Parts::new(alloc, w)?;
        parts.open(trace);
        let lows = parts.lows();
        Ok(Kernel {
            parts,
            lows,
            spare: 0,
            last: 0,
        })
    }

    /// Makes room for at least `n` entries. An error changes nothing but the room, which does not shrink.
    pub fn reserve(&mut self, n: usize) -> Result<(), AllocError>
        ensures ok { OnOk result (n ≤ self.new.spare) }
        ensures grows { self.old.spare ≤ self.new.spare }
        ensures state { kernel_of self.new ≡ kernel_of self.old }
        ensures last { self.new.last ≡ self.old.last }
        ensures err { OnErr result (self.new.spare ≡ self.old.spare) }
    {
        if self.spare < n {
            self.parts.reserve(n)?;
            self.spare = n;
        }
        Ok(())
    }

    /// Does an entry on the processor at the event, and the closing of the event: exactly what `entered` says, in
    /// some fresh activation if it upcalls. Answers that activation where it did, else `Nothing`. It adds at most
    /// `ENTRY_ITEMS` items beside those that are owed no longer, so room for `ENTRY_ITEMS` an entry and for what is owed
    /// suffices for many.
    pub fn enter(&mut self, p: ProcNo, event: u64, entry: Entry<C>, trace: &mut Trace) -> Given
        requires within { p.0 < processors self.old }
        requires later { self.old.last < event }
        requires event { event ≤ MAX_EVENTS }
        requires fit { MayEnter (kernel_of self.old) p event entry }
        requires room { 1 ≤ self.old.spare }
        requires trace { need_of (kernel_of self.old) ≤ trace.old.spare }
        requires fetched { (kernel_of self.old).telling ≡ [] }
        ensures exact { Enters (scene self.old trace.old) (scene self.new trace.new) result
            (upcalls (kernel_of self.old) p entry) (λ a. entered event p a entry) }
        ensures spare { self.new.spare + 1 ≡ self.old.spare }
        ensures last { self.new.last ≡ event }
        ensures items { Adds (need_of (kernel_of self.old)) trace.old trace.new }
        ensures owed { trace.old.spare + owed_items (kernel_of self.new)
            ≤ trace.new.spare + owed_items (kernel_of self.old) + ENTRY_ITEMS }
        ensures upcalled { (a : ActNo) → result ≡ Given.Upcall a → IsUpcalled (kernel_of self.new) p a }

        // Whatever the user level does: a history goes on by one event, at which the kernel's laws hold.
        ensures lawful { GoesOnLawfully event p (Some entry) (scene self.old trace.old) (scene self.new trace.new) }
    {
        let given = self.parts.enter_as(event, p, entry, trace);
        self.parts.close(event, p, trace);
        self.lows = self.parts.lows();
        self.spare -= 1;
        self.last = event;
        given
    }

    /// Does the closing of an event at which a slice ends and no entry came.
    pub fn slice_end(&mut self, p: ProcNo, event: u64, trace: &mut Trace)
        requires within { p.0 < processors self.old }
        requires later { self.old.last < event }
        requires event { event ≤ MAX_EVENTS }
        requires trace { need_of (kernel_of self.old) ≤ trace.old.spare }
        ensures exact { scene self.new trace.new ≡ closed event p (scene self.old trace.old) }
        ensures spare { self.new.spare ≡ self.old.spare }
        ensures last { self.new.last ≡ event }
        ensures items { Adds (need_of (kernel_of self.old)) trace.old trace.new }
        ensures owed { trace.old.spare + owed_items (kernel_of self.new)
            ≤ trace.new.spare + owed_items (kernel_of self.old) + ENTRY_ITEMS }

        // Likewise.
        ensures lawful { GoesOnLawfully event p None (scene self.old trace.old) (scene self.new trace.new) }
    {
        self.parts.close(event, p, trace);
        self.lows = self.parts.lows();
        self.last = event;
    }

    /// The pages that the workload evicts at this event are absent from now on.
    pub fn evict(&mut self, event: u64)
        ensures state { kernel_of self.new ≡ evicted_at event (kernel_of self.old) }
        ensures spare { self.new.spare ≡ self.old.spare }
        ensures last { self.new.last ≡ self.old.last }
    {
        self.parts.devices.evict(event);
    }

    /// The next notice that the last upcall told, in order, with the context that it hands over, which is taken
    /// from now on; `None` exactly where all were fetched.
    pub fn next_note(&mut self) -> Option<(Note, Option<Stopped<C>>)>
        ensures note { result ≡ next_note (kernel_of self.old) }
        ensures state { kernel_of self.new
            ≡ after_fetch (kernel_of self.old).telling (kernel_of self.old) }
        ensures spare { self.new.spare ≡ self.old.spare }
        ensures last { self.new.last ≡ self.old.last }
        ensures told { (s : ℕ) → AreClaimed (kernel_of self.old) s → AreClaimed (kernel_of self.new) s }
        ensures owed { owed_items (kernel_of self.new) ≤ owed_items (kernel_of self.old) }
        ensures lawful { KeepsHistories (kernel_of self.old) (kernel_of self.new) }
    {
        self.parts.next_note()
    }

    /// A spare of the trace that suffices for an entry: `ENTRY_ITEMS`, and one for each notice that was not told and for
    /// each activation that is taken and not given back.
    pub fn need(&self) -> usize
        ensures { result ≡ need_of (kernel_of self.now) }
    {
        ENTRY_ITEMS + self.parts.notices.count() + self.parts.taken_count()
    }

    /// Shows what always holds: an activation runs on each processor that is owned, in its owner and nowhere else; a
    /// raised line has an aim; each context that is held has one claim on it, an I/O under way or a notice; and a notice
    /// waits only where its space owns no processor, its upcall page is being fetched, or the line of one that it owns is
    /// raised. It does nothing.
    pub fn keeps(&self)
        ensures sound { IsSound (kernel_of self.now) }
        ensures prompt { IsPrompt (kernel_of self.now) }
        ensures pending { pending_count (kernel_of self.now) ≤ self.now.last }
        ensures last { self.now.last ≤ MAX_EVENTS }
    {
        let _kernel = &self.spare;
    }

    /// The number of processors.
    pub fn processors(&self) -> u16
        ensures is { result ≡ processors self.now }
        ensures few { result ≤ MAX_PROCESSORS }
    {
        self.parts.assign.processors()
    }

    /// The event of the last entry or end of a slice, 0 at the opening.
    pub fn last_event(&self) -> u64
        ensures { result ≡ self.now.last }
    {
        self.last
    }

    /// The space whose activation runs on the processor.
    pub fn owner(&self, p: ProcNo) -> Option<SpaceNo>
        requires { p.0 < processors self.now }
        ensures { result ≡ owner_of (kernel_of self.now) p }
    {
        self.parts.assign.owner(p)
    }

    /// The activation that runs on the processor.
    pub fn life(&self, p: ProcNo) -> Option<ActNo>
        requires { p.0 < processors self.now }
        ensures { result ≡ life_of (kernel_of self.now) p }
    {
        self.parts.life(p)
    }

    /// The event that raised the processor's line, or `None` where the line is low.
    pub fn line(&self, p: ProcNo) -> Option<u64>
        requires { p.0 < processors self.now }
        ensures { result ≡ line_of (kernel_of self.now) p }
    {
        self.parts.assign.line(p)
    }

    /// Of each processor: its owner, its aim, its line and its idle mark.
    pub fn assign(&self) -> &Assign
        ensures { result.now ≡ (kernel_of self.now).assign }
    {
        &self.parts.assign
    }

    /// The I/Os under way, and the resident pages of each space.
    pub fn devices(&self) -> &Devices
        ensures ios { result.now.ios.under_way ≡ (kernel_of self.now).under_way }
        ensures pages { result.now.pages ≡ (kernel_of self.now).pages }
    {
        &self.parts.devices
    }

    /// The number of processors that each space announced last.
    pub fn demands(&self) -> &[u16]
        ensures { result.now ≡ (kernel_of self.now).demands }
    {
        self.parts.demands.as_slice()
    }

    /// What the space was not told yet, in order.
    pub fn untold(&self, s: SpaceNo) -> &[Note]
        requires { s.0 < length (kernel_of self.now).demands }
        ensures { result.now ≡ untold_of (kernel_of self.now) s.0 }
    {
        self.parts.notices.untold(s)
    }

    /// The context that is held of an activation: `None` exactly where none is.
    pub fn held(&self, a: ActNo) -> Option<&Stopped<C>>
        ensures { option_copied result ≡ held_of ((kernel_of self.now).acts a.0) }
    {
        self.parts.acts.held(a)
    }

    /// How many activations of the space are taken and not given back.
    pub fn taken(&self, s: SpaceNo) -> u32
        ensures { result ≡ length (taken_of (kernel_of self.now) s.0) }
    {
        self.parts.acts.taken(s)
    }

    /// The space that an event serves first, of those of one priority.
    pub fn first_space(&self, event: u64) -> u16
        ensures { result ≡ first_space (kernel_of self.now) event }
    {
        self.parts.first_space(event)
    }

    /// The I/O that is due at the event and was due first, or `None` where none is due.
    pub fn due(&self, event: u64) -> Option<IoNo>
        ensures under_way { IfSome result (λ io. IsSome (io_at io.0 (kernel_of self.now).under_way)) }
        ensures soonest { result ≡ option_map io_no (due_of event (kernel_of self.now).under_way) }
    {
        self.parts.devices.due(event)
    }

    /// What a user level sees on a processor of its space at the event.
    pub fn seen(&self, p: ProcNo, event: u64) -> Seen
        requires within { p.0 < processors self.now }
        requires owned { IsSome (owner_of (kernel_of self.now) p) }
        ensures { (s : SpaceNo) → owner_of (kernel_of self.now) p ≡ Some s
            → result ≡ seen_of (kernel_of self.now) p s event }
    {
        self.parts.seen(p, event, &self.lows)
    }

    /// Whether nothing can come any more of what was done: no I/O or fetch is under way, no line is raised, and no space
    /// waits to be told of a context that was not idle. Takes constant time while an I/O is under way.
    pub fn quiet(&self) -> bool
        ensures { result ≡ is_quiet (kernel_of self.now) }
    {
        !self.parts.devices.busy() && !self.parts.has_line() && !self.parts.has_call()
    }
}
