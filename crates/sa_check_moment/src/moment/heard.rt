// What the rules of any user level read of a moment: which threads are heard of.
#![tactic(auto, unfolding(crate::specs::Seen::seen))]

ghost use Rattle.std.specs.Prelude.{◌≡◌};
ghost use Rattle.sa_laws.specs.Readings.{life_of};
ghost use Rattle.sa_laws.specs.Any.{is_held_by, names_thread, is_heard, is_handed, has_heard_hand};
ghost use Rattle.sa_check_moment.specs.Seen.{seen};

use crate::moment::Moment;
use sa_base::{ActNo, Note, SpaceNo, ThreadNo};
use sa_check_lives::KeptLife;
use sa_laws::Place;

impl Moment {
    /// The thread is heard of: no stop or unblock that names it is untold. It looks at what the space was not told.
    pub fn is_heard(&self, s: SpaceNo, t: ThreadNo) -> bool
        ensures { result ≡ is_heard (seen self.now).readings s t }
    {
        for note in self.untold(s) {
            if self.names_thread(t, *note) {
                return false;
            }
        }
        true
    }

    /// A thread of the life's hand is due, or carried and heard of.
    pub fn has_heard_hand(&self, life: &KeptLife) -> bool
        ensures { result ≡ has_heard_hand (seen self.now).readings life.now }
    {
        let s = life.space();
        for t in life.hand() {
            if self.is_handed(s, *t) {
                return true;
            }
        }
        false
    }

    // The thread of a hand is due, or carried and heard of.
    fn is_handed(&self, s: SpaceNo, t: ThreadNo) -> bool
        ensures { result ≡ is_handed (seen self.now).readings s t }
    {
        self.parts.replay.is_due(s, t)
            || (self.thread(s, t).place() == Place::Carried && self.is_heard(s, t))
    }

    // The notice is of a stop or an unblock that names the thread.
    fn names_thread(&self, t: ThreadNo, note: Note) -> bool
        ensures { result ≡ names_thread (seen self.now).readings t note }
    {
        match note {
            Note::Preempted(a) => self.is_held_by(t, a),
            Note::Unblocked(a) => self.is_held_by(t, a),
            _ => false,
        }
    }

    // The thread is that of the life's stop or block.
    fn is_held_by(&self, t: ThreadNo, a: ActNo) -> bool
        ensures { result ≡ is_held_by t (life_of (seen self.now).readings a) }
    {
        match self.life(a) {
            None => false,
            Some(life) => match life.thread() {
                None => false,
                Some(u) => t.0 == u.0,
            },
        }
    }
}
