// What must hold after an event of the spaces that were not told something.
ghost use Rattle.std.specs.Prelude.{◌≡◌, ◌↔◌, Some, false, IsTrue};
ghost use Rattle.sa_base.specs.declared.number.SpaceNo.{SpaceNo};
ghost use Rattle.sa_laws.specs.Readings.{owner_of};
ghost use Rattle.sa_laws.specs.Closing.{must_want};
ghost use Rattle.sa_laws.specs.Upcalls.{OwnsNone, OwnsRaised, IsPrompt};
ghost use Rattle.sa_check_moment.specs.Seen.{seen};
ghost use Rattle.sa_check.specs.Prompt.{IsPromptTo};

use sa_base::{ProcNo, SpaceNo};
use sa_check_moment::Moment;

/// No space that wants no processor must be told anything.
pub(crate) fn wants_nothing(moment: &Moment) -> bool
    ensures { IsTrue result ↔ ((s : SpaceNo) → must_want (seen moment.now).readings s ≡ false) }
{
    moment.ranges();
    for s in 0..moment.workload().spaces().len() {
        if moment.must_want(SpaceNo(s as u16)) {
            return false;
        }
    }
    true
}

/// Each space with something untold owns no processor, or its upcall page is being fetched, or it owns a processor whose
/// line is raised.
pub(crate) fn is_told_in_time(moment: &Moment) -> bool
    ensures { IsTrue result ↔ IsPrompt (seen moment.now).readings }
{
    moment.ranges();
    for s in 0..moment.workload().spaces().len() {
        if !is_prompt_to(moment, SpaceNo(s as u16)) {
            return false;
        }
    }
    true
}

// That holds of this space.
fn is_prompt_to(moment: &Moment, s: SpaceNo) -> bool
    ensures { IsTrue result ↔ IsPromptTo (seen moment.now).readings s }
{
    moment.untold(s).is_empty()
        || moment.is_fetching(s)
        || owns_raised(moment, s)
        || owns_none(moment, s)
}

// The space owns a processor whose line is raised.
fn owns_raised(moment: &Moment, s: SpaceNo) -> bool
    ensures { IsTrue result ↔ OwnsRaised (seen moment.now).readings s }
{
    moment.ranges();
    for p in 0..moment.workload().processors() {
        if owns(moment, s, ProcNo(p)) && moment.line(ProcNo(p)).is_some() {
            return true;
        }
    }
    false
}

// The space owns no processor.
fn owns_none(moment: &Moment, s: SpaceNo) -> bool
    ensures { IsTrue result ↔ OwnsNone (seen moment.now).readings s }
{
    moment.ranges();
    for p in 0..moment.workload().processors() {
        if owns(moment, s, ProcNo(p)) {
            return false;
        }
    }
    true
}

// The space owns the processor.
fn owns(moment: &Moment, s: SpaceNo, p: ProcNo) -> bool
    ensures { IsTrue result ↔ (owner_of (seen moment.now).readings p ≡ Some s) }
{
    moment.owner(p) == Some(s)
}
