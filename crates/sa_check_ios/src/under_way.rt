// The I/Os under way, in the order of their numbers.
ghost use Rattle.std.specs.Prelude.{◌≡◌, ◌↔◌, [], ◌∷◌, ◌++◌, find, filter, length, All, Some, IsTrue, IfSome, OnOk, OnErr, slice_get};
ghost use Rattle.std.specs.List.{list_any};
ghost use Rattle.std.specs.Option.{option_map};
ghost use Rattle.sa_devices.specs.Ios.{Io, due_of, fetches, is_fetch_of, is_sooner};
ghost use Rattle.sa_devices.specs.Pages.{HasPage};
ghost use Rattle.sa_laws.specs.Record.{is_kind_of, is_io_of, is_io_of_other, fetches_other};
ghost use Rattle.sa_check_ios.specs.Kept.{soonest_of, nearer};

use sa_base::{ActNo, SpaceNo};
use sa_devices::IoKind;
use std::alloc::{AllocError, Global};
use std::marker::Model;

/// An I/O under way: its number, the event from which on it is due, and what it is for.
#[derive(Clone, Copy)]
pub(crate) struct BegunIo {
    pub(crate) number: u64,
    pub(crate) ends: u128,
    pub(crate) kind: IoKind,
}

impl Model for BegunIo {
    ghost use Rattle.sa_devices.specs.Ios.{Io};

    ghost Value = { Io };

    ghost view = { λ x. record { number = x.number; ends = x.ends; kind = x.kind } };

    ghost inverse = { λ x. record { number = x.number; ends = x.ends; kind = x.kind } };
}

/// Those under way, and of them the one with the least end, and of these the one with the least number.
#[derive(Drop)]
pub(crate) struct UnderWay {
    ios: Vec<BegunIo>,
    soonest: Option<BegunIo>,
}

impl Model for UnderWay {
    ghost use Rattle.std.specs.Prelude.{◌≡◌, List, All};
    ghost use Rattle.sa_devices.specs.Ios.{Io};
    ghost use Rattle.sa_devices.specs.Pages.{HasPage};
    ghost use Rattle.sa_check_ios.specs.Kept.{soonest_of};

    ghost Value = { List Io };

    ghost view = { λ x. x.ios.items };

    ghost invariant = { λ x. (x.soonest ≡ soonest_of x.ios.items)
        × All (λ (io : Io). HasPage io.kind) x.ios.items };
}

impl UnderWay {
    pub(crate) fn new(alloc: Global) -> Self
        ensures { result ≡ [] }
    {
        UnderWay {
            ios: Vec::new(alloc),
            soonest: None,
        }
    }

    /// Begins one after the others. An error changes nothing.
    pub(crate) fn begin(&mut self, io: BegunIo) -> Result<(), AllocError>
        requires { HasPage io.kind }
        ensures ok { OnOk result (self.new ≡ self.old ++ io ∷ []) }
        ensures err { OnErr result (self.new ≡ self.old) }
    {
        self.ios.push(io)?;
        self.soonest = Some(nearer(self.soonest, io));
        Ok(())
    }

    /// Those of the life are over. Answers what the first of them was for.
    pub(crate) fn end_life(&mut self, a: ActNo) -> Option<IoKind>
        ensures rest { self.new ≡ filter (is_io_of_other a) self.old }
        ensures over { result ≡ option_map (λ (io : Io). io.kind) (find (is_io_of a) self.old) }
        ensures page { IfSome result HasPage }
    {
        let over = first_of_life(self.ios.as_slice(), a);
        drop_life(&mut self.ios, a);
        self.soonest = soonest_of(self.ios.as_slice());
        over
    }

    /// The fetches of the upcall page of the space are over. Answers what the first of them was for.
    pub(crate) fn end_fetch(&mut self, s: SpaceNo) -> Option<IoKind>
        ensures rest { self.new ≡ filter (fetches_other s) self.old }
        ensures over { result ≡ option_map (λ (io : Io). io.kind) (find (fetches s.0) self.old) }
        ensures page { IfSome result HasPage }
    {
        let over = first_fetch(self.ios.as_slice(), s);
        drop_fetches(&mut self.ios, s);
        self.soonest = soonest_of(self.ios.as_slice());
        over
    }

    /// What the one is for that is due at the event.
    pub(crate) fn due(&self, event: u64) -> Option<IoKind>
        ensures { result ≡ option_map (λ (io : Io). io.kind) (due_of event self.now) }
    {
        match self.soonest {
            Some(io) if io.ends <= u128::from(event) => Some(io.kind),
            _ => None,
        }
    }

    /// Some one is that of the life.
    pub(crate) fn has_life(&self, a: ActNo) -> bool
        ensures { result ≡ list_any (is_io_of a) self.now }
    {
        first_of_life(self.ios.as_slice(), a).is_some()
    }

    /// Some one fetches the upcall page of the space.
    pub(crate) fn has_fetch(&self, s: SpaceNo) -> bool
        ensures { result ≡ list_any (fetches s.0) self.now }
    {
        first_fetch(self.ios.as_slice(), s).is_some()
    }

    /// How many there are.
    pub(crate) fn len(&self) -> usize
        ensures { result ≡ length self.now }
    {
        self.ios.len()
    }

    /// What the one at this index is for.
    pub(crate) fn kind_at(&self, k: usize) -> Option<IoKind>
        ensures { result ≡ option_map (λ (io : Io). io.kind) (slice_get self.now k) }
    {
        match self.ios.get(k) {
            None => None,
            Some(io) => Some(io.kind),
        }
    }

    pub(crate) fn is_empty(&self) -> bool
        ensures { IsTrue result ↔ (self.now ≡ []) }
    {
        self.ios.is_empty()
    }
}

// The first one comes before the second.
fn is_sooner(a: BegunIo, b: BegunIo) -> bool
    ensures { result ≡ is_sooner a b }
{
    a.ends < b.ends || (a.ends == b.ends && a.number < b.number)
}

// Of the two the one that comes first.
fn nearer(first: Option<BegunIo>, io: BegunIo) -> BegunIo
    ensures { Some result ≡ nearer first (Some io) }
{
    match first {
        Some(first) if !is_sooner(io, first) => first,
        _ => io,
    }
}

// Of these the one that comes first.
fn soonest_of(ios: &[BegunIo]) -> Option<BegunIo>
    ensures { result ≡ soonest_of ios.now }
{
    let mut soonest: Option<BegunIo> = None;
    for io in ios {
        soonest = Some(nearer(soonest, *io));
    }
    soonest
}

// The I/O is that of the life.
fn is_of_life(a: ActNo, kind: IoKind) -> bool
    ensures { result ≡ is_kind_of a kind }
{
    match kind {
        IoKind::Plain(_, b) | IoKind::Page(_, b, _) => b.0 == a.0,
        IoKind::Upcall(_) => false,
    }
}

// The I/O fetches the upcall page of the space.
fn is_fetch_of(s: SpaceNo, kind: IoKind) -> bool
    ensures { result ≡ is_fetch_of s.0 kind }
{
    match kind {
        IoKind::Upcall(t) => t.0 == s.0,
        _ => false,
    }
}

fn first_of_life(ios: &[BegunIo], a: ActNo) -> Option<IoKind>
    ensures { result ≡ option_map (λ (io : Io). io.kind) (find (is_io_of a) ios.now) }
{
    for io in ios {
        if is_of_life(a, io.kind) {
            return Some(io.kind);
        }
    }
    None
}

fn first_fetch(ios: &[BegunIo], s: SpaceNo) -> Option<IoKind>
    ensures { result ≡ option_map (λ (io : Io). io.kind) (find (fetches s.0) ios.now) }
{
    for io in ios {
        if is_fetch_of(s, io.kind) {
            return Some(io.kind);
        }
    }
    None
}

fn drop_life(ios: &mut Vec<BegunIo>, a: ActNo)
    ensures { ios.new.items ≡ filter (is_io_of_other a) ios.old.items }
{
    ios.retain(|io| !is_of_life(a, io.kind));
}

fn drop_fetches(ios: &mut Vec<BegunIo>, s: SpaceNo)
    ensures { ios.new.items ≡ filter (fetches_other s) ios.old.items }
{
    ios.retain(|io| !is_fetch_of(s, io.kind));
}
