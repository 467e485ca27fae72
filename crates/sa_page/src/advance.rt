// A moment goes along an event, which is not judged.
ghost use Rattle.std.specs.Prelude.{IfOk};
ghost use Rattle.sa_check_moment.specs.Seen.{seen, event};
ghost use Rattle.sa_check.specs.Items.{told_event};
ghost use Rattle.sa_page.specs.Advance.{ReadsSome, Advances};

use sa_base::{ProcNo, Record};
use sa_cells::View;
use sa_check::TraceEvent;
use sa_check_shapes::{closing_part, own_part};
use std::alloc::AllocError;

/// What is seen behind the event. `None` exactly where one of its records is no step of the abstract machine.
pub(crate) fn advance(view: View, event: &TraceEvent) -> Result<Option<View>, AllocError>
    ensures { IfOk result (Advances (seen view.moment) (told_event event.now)) }
{
    let number = event.number;
    let p = event.proc;
    let records = event.records;
    let start = view.moment.before(p, records);
    let begun = view.begin(number, p);
    let Some(own) = read_some(begun, number, p, own_part(records))? else {
        return Ok(None);
    };
    let urged = own.moment.is_urged(start.running);
    let Some(all) = read_some(own, number, p, closing_part(records))? else {
        return Ok(None);
    };
    let View { moment, replay } = all;
    let moment = moment.finish(number, p, records, start, urged)?;
    Ok(Some(View { moment, replay }))
}

// What is seen behind these records of an event. `None` exactly where one of them is no step of the abstract machine.
fn read_some(
    view: View,
    number: u64,
    p: ProcNo,
    records: &[Record],
) -> Result<Option<View>, AllocError>
    ensures { IfOk result (ReadsSome (seen view.moment) (event number p records.now)) }
{
    let mut now = view;
    for what in records {
        if !now.moment.allows(p, what) {
            return Ok(None);
        }
        now = now.read(number, p, what)?;
    }
    Ok(Some(now))
}
