// A block gives an upcall: the law of each record, on the moment before it. `rest` comes after it.
ghost use Rattle.std.specs.Prelude.{◌↔◌, IsTrue};
ghost use Rattle.sa_laws.specs.Upcalls.{GivesUpcallThen};
ghost use Rattle.sa_check_moment.specs.Seen.{seen};

use crate::page::upcall_page;
use sa_base::{ProcNo, Record};
use sa_check_moment::Moment;
use sa_check_shapes::follows_block;

/// A block gives an upcall: a block has the number of its I/O, and after it the processor goes on.
pub fn gives_upcall(moment: &Moment, p: ProcNo, what: &Record, rest: &[Record]) -> bool
    ensures { IsTrue result ↔ GivesUpcallThen p (seen moment.now).readings what.now rest.now }
{
    match *what {
        Record::Block(s, _, _, io) => {
            u64::from(io.0) == moment.io_count()
                && follows_block(p, s, upcall_page(moment, s), rest)
        }
        _ => true,
    }
}
