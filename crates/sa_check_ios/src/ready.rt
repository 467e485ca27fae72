// The ready lists.
ghost use Rattle.std.specs.Prelude.{◌≡◌, [], ◌∷◌, ◌++◌, find, filter, IfOk, OnOk, OnErr};
ghost use Rattle.std.specs.List.{list_any};
ghost use Rattle.sa_laws.specs.Readings.{first_listed, is_in};
ghost use Rattle.sa_laws.specs.Record.{is_other_thread};
ghost use Rattle.sa_laws.specs.Locks.{newest, oldest};
ghost use Rattle.sa_check_ios.specs.Ready.{first_ready, listed_at, with_ready, without_ready};

use sa_base::{ProcNo, SpaceNo, ThreadNo};
use std::alloc::{AllocError, Global};
use std::marker::Model;

/// A thread of a ready list.
#[derive(Clone, Copy)]
pub struct ListedThread {
    /// The thread, one of the list's space.
    pub thread: ThreadNo,
    /// The list.
    pub list: ProcNo,
}

impl Model for ListedThread {
    ghost use Rattle.sa_laws.specs.Readings.{Listed};

    ghost Value = { Listed };

    ghost view = { λ x. record { thread = x.thread; list = x.list } };

    ghost inverse = { λ x. record { thread = x.thread; list = x.list } };
}

// The ready threads of one space, in the order of their ready records.
#[derive(Drop)]
struct Row {
    threads: Vec<ListedThread>,
}

impl Model for Row {
    ghost use Rattle.std.specs.Prelude.{List};
    ghost use Rattle.sa_laws.specs.Readings.{Listed};

    ghost Value = { List Listed };

    ghost view = { λ x. x.threads.items };
}

/// Of each space the ready threads in the order of their ready records, each with its list. A space that is not there
/// has none.
#[derive(Drop)]
pub struct ReadyLists {
    rows: Vec<Row>,
}

impl Model for ReadyLists {
    ghost use Rattle.std.specs.Prelude.{List};
    ghost use Rattle.sa_laws.specs.Readings.{Listed};

    ghost Value = { List (List Listed) };

    ghost view = { λ x. x.rows.items };
}

impl ReadyLists {
    /// Before any record: thread 0 of each of this many spaces is ready in list 0. Fails only where memory runs out.
    pub fn new(alloc: Global, spaces: usize) -> Result<ReadyLists, AllocError>
        ensures { IfOk result (λ x. x ≡ first_ready spaces) }
    {
        let mut rows = Vec::new(alloc);
        for _ in 0..spaces {
            rows.push(Row::new(alloc)?)?;
        }
        Ok(ReadyLists { rows })
    }

    /// The thread is ready in the list. An error changes nothing.
    pub fn ready(&mut self, s: SpaceNo, t: ThreadNo, list: ProcNo) -> Result<(), AllocError>
        ensures ok { OnOk result (self.new ≡ with_ready self.old s t list) }
        ensures err { OnErr result (self.new ≡ self.old) }
    {
        if usize::from(s.0) >= self.rows.len() {
            return Ok(());
        }
        self.rows[usize::from(s.0)].push(ListedThread { thread: t, list })
    }

    /// The thread is run: it is in no list of the space any more.
    pub fn run(&mut self, s: SpaceNo, t: ThreadNo)
        ensures { self.new ≡ without_ready self.old s t }
    {
        if usize::from(s.0) < self.rows.len() {
            self.rows[usize::from(s.0)].remove(t);
        }
    }

    /// The ready threads of the space, in the order of their ready records.
    pub fn listed(&self, s: SpaceNo) -> &[ListedThread]
        ensures { result.now ≡ listed_at self.now s }
    {
        match self.rows.get(usize::from(s.0)) {
            None => &[],
            Some(row) => row.threads(),
        }
    }

    /// A ready thread of the space is in the list.
    pub fn has_ready(&self, s: SpaceNo, l: ProcNo) -> bool
        ensures { result ≡ list_any (is_in l) (listed_at self.now s) }
    {
        first_in(self.listed(s), l).is_some()
    }

    /// The thread of the list that was made ready first.
    pub fn oldest(&self, s: SpaceNo, l: ProcNo) -> Option<ListedThread>
        ensures { result ≡ oldest (filter (is_in l) (listed_at self.now s)) }
    {
        first_in(self.listed(s), l)
    }

    /// The thread of the list that was made ready last.
    pub fn newest(&self, s: SpaceNo, l: ProcNo) -> Option<ListedThread>
        ensures { result ≡ newest (filter (is_in l) (listed_at self.now s)) }
    {
        last_in(self.listed(s), l)
    }
}

impl Row {
    fn new(alloc: Global) -> Result<Row, AllocError>
        ensures { IfOk result (λ row. row ≡ first_listed ∷ []) }
    {
        let mut threads = Vec::new(alloc);
        threads.push(ListedThread {
            thread: ThreadNo(0),
            list: ProcNo(0),
        })?;
        Ok(Row { threads })
    }

    fn threads(&self) -> &[ListedThread]
        ensures { result.now ≡ self.now }
    {
        self.threads.as_slice()
    }

    fn push(&mut self, x: ListedThread) -> Result<(), AllocError>
        ensures ok { OnOk result (self.new ≡ self.old ++ x ∷ []) }
        ensures err { OnErr result (self.new ≡ self.old) }
    {
        self.threads.push(x)?;
        Ok(())
    }

    fn remove(&mut self, t: ThreadNo)
        ensures { self.new ≡ filter (is_other_thread t) self.old }
    {
        self.threads.retain(|x| x.thread.0 != t.0);
    }
}

// The thread is in the list.
fn is_in(x: ListedThread, l: ProcNo) -> bool
    ensures { result ≡ is_in l x }
{
    x.list.0 == l.0
}

// The first of the threads that is in the list.
fn first_in(listed: &[ListedThread], l: ProcNo) -> Option<ListedThread>
    ensures { result ≡ find (is_in l) listed.now }
{
    for x in listed {
        if is_in(*x, l) {
            return Some(*x);
        }
    }
    None
}

// The last of the threads that is in the list.
fn last_in(listed: &[ListedThread], l: ProcNo) -> Option<ListedThread>
    ensures { result ≡ newest (filter (is_in l) listed.now) }
{
    let mut last = None;
    for x in listed {
        if is_in(*x, l) {
            last = Some(*x);
        }
    }
    last
}
