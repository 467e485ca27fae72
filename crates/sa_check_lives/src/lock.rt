use sa_base::{ProcNo, ThreadNo};
use std::marker::Model;

/// The lock of a ready list that a life has.
#[derive(Clone, Copy)]
pub struct ListLock {
    /// The list, one of its life's space.
    pub list: ProcNo,
    /// The thread that its take named, and after its run the thread that was run.
    pub thread: Option<ThreadNo>,
    /// It was taken for a push, and not for a pop.
    pub for_push: bool,
    /// It has got its ready or run record.
    pub used: bool,
    /// It was taken on the list's own processor.
    pub own: bool,
    /// The life got it at its up, and did not take it itself.
    pub inherited: bool,
}

impl Model for ListLock {
    ghost use Rattle.sa_laws.specs.Life.{Lock};

    ghost Value = { Lock };

    ghost view = { λ x. record {
      list = x.list;
      thread = x.thread;
      for_push = x.for_push;
      used = x.used;
      own = x.own;
      inherited = x.inherited;
    } };

    ghost inverse = { λ x. record {
      list = x.list;
      thread = x.thread;
      for_push = x.for_push;
      used = x.used;
      own = x.own;
      inherited = x.inherited;
    } };
}
