// One event of a machine: what it does is the first that applies of a raised line, an I/O that is due, and a step.
ghost use Rattle.std.specs.Prelude.{◌+◌, ◌≤◌, ◌<◌};
ghost use Rattle.sa_base.specs.declared.limits.TheConstants.{MAX_EVENTS};
ghost use Rattle.sa_core_model.specs.Turn.{turned_now, turned};
ghost use Rattle.sa_core_model.specs.Standing.{IsBetween};
ghost use Rattle.sa_machine.specs.declared.machine.TheConstants.{EVENT_ITEMS};
ghost use Rattle.sa_machine.specs.View.{machine_of};
ghost use Rattle.sa_machine.specs.Room.{owed, Spends};
ghost use Rattle.sa_machine.specs.Needs.{ByFresh, IsNext};

use sa_abstract::UserLevel;
use sa_base::ProcNo;
use sa_machine::MachineParts;

// What applies first: a raised line, an I/O that is due, else a step.
fn turn_now<U: UserLevel>(machine: &mut MachineParts<U>, p: ProcNo)
    requires next { IsNext U.stands (machine_of machine.old) }
    requires within { p.0 < machine.old.workload.processors }
    requires later { machine.old.kernel.last < machine.old.events }
    requires entries { 1 ≤ machine.old.kernel.spare }
    requires room { EVENT_ITEMS + owed machine.old ≤ machine.old.trace.spare }
    ensures machine { ByFresh (machine_of machine.old) (machine_of machine.new)
        (λ fresh. turned_now U.calls p fresh (machine_of machine.old)) }
    ensures spends { Spends machine.old machine.new EVENT_ITEMS 1 }
{
    if machine.kernel.line(p).is_some() {
        return machine.interrupt(p);
    }
    match machine.kernel.due(machine.events) {
        Some(io) => machine.complete(p, io),
        None => machine.run(p),
    }
}

/// One event of a processor.
pub(crate) fn turn<U: UserLevel>(machine: &mut MachineParts<U>, p: ProcNo)
    requires between { IsBetween U.stands (machine_of machine.old) }
    requires within { p.0 < machine.old.workload.processors }
    requires event { machine.old.events < MAX_EVENTS }
    requires later { machine.old.kernel.last ≤ machine.old.events }
    requires entries { 1 ≤ machine.old.kernel.spare }
    requires room { EVENT_ITEMS + owed machine.old ≤ machine.old.trace.spare }
    ensures machine { ByFresh (machine_of machine.old) (machine_of machine.new)
        (λ fresh. turned U.calls p fresh (machine_of machine.old)) }
    ensures spends { Spends machine.old machine.new EVENT_ITEMS 1 }
{
    machine.next();
    turn_now(machine, p);
}
