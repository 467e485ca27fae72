// A line has its cause: the law of each record, on the moment before it. `rest` comes after it.
ghost use Rattle.std.specs.Prelude.{◌↔◌, IsTrue};
ghost use Rattle.sa_laws.specs.Upcalls.{RaisesLine};
ghost use Rattle.sa_check_moment.specs.Seen.{seen};

use sa_base::Record;
use sa_check_moment::Moment;
use sa_check_shapes::begins_with_line;

/// A line has its cause: none is raised that is raised already, and after an aim of a processor whose line is low comes
/// its line.
pub fn raises_line(moment: &Moment, what: &Record, rest: &[Record]) -> bool
    ensures { IsTrue result ↔ RaisesLine (seen moment.now).readings what.now rest.now }
{
    match *what {
        Record::Aim(p, Some(_)) => moment.line(p).is_some() || begins_with_line(p, rest),
        Record::Line(p) => moment.line(p).is_none(),
        _ => true,
    }
}
