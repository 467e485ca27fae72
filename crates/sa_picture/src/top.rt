// From the program's arguments to what is written.
ghost use Rattle.std.specs.Prelude.{◌≡◌, ◌+◌, ◌≤◌};
ghost use Rattle.sa_io.specs.Input.{LosesAtMost};
ghost use Rattle.sa_io.specs.Streams.{streams, world_by};
ghost use Rattle.sa_input.specs.declared.limits.TheConstants.{TRACE_LIMIT};
ghost use Rattle.sa_picture.specs.Request.{request_of};
ghost use Rattle.sa_picture.specs.Status.{WritesNothing};
ghost use Rattle.sa_picture.specs.Answers.{Answers};
ghost use Rattle.sa_picture.specs.TopCall.{DoesTheRequest, DoesTheProgram};

use crate::paged::text_of;
use crate::request::{Request, read_request};
use crate::status::Status;
use sa_input::TRACE_LIMIT;
use sa_io::{Sink, Source, Words, read_input, write_text};
use std::alloc::Global;
use std::env::Args;
use std::io;

/// The program: does what its arguments ask for, the first of which is its name.
pub fn draw_program<S: Source, K: Sink>(
    alloc: Global,
    args: io::Result<Args>,
    source: &mut S,
    sink: &mut K,
) -> Status
    ensures { DoesTheProgram (world_by S.left K.taken S.faults K.faults) args
        (streams source.old sink.old) (streams source.new sink.new) result }
{
    match Words::read(alloc, args) {
        Ok(words) => top(alloc, &words, source, sink),
        Err(why) => Status::from(why),
    }
}

/// Does what the words ask for: reads the source's trace text, or its workload and trace, and writes the picture or the page to
/// the sink.
pub fn top<S: Source, K: Sink>(alloc: Global, words: &Words, source: &mut S, sink: &mut K) -> Status
    ensures { DoesTheRequest (world_by S.left K.taken S.faults K.faults) (request_of words.now)
        (streams source.old sink.old) (streams source.new sink.new) result }
{
    match read_request(words.list()) {
        Some(request) => draw_trace(alloc, request, source, sink),
        None => Status::Usage,
    }
}

// Draws what is asked for.
fn draw_trace<S: Source, K: Sink>(
    alloc: Global,
    request: Request,
    source: &mut S,
    sink: &mut K,
) -> Status
    ensures no_usage { result ≡ Status.Usage → ⊥ }
    ensures unwritten { WritesNothing result → sink.new ≡ sink.old }
    ensures lost { LosesAtMost (TRACE_LIMIT + 1) (S.left source.old) (S.left source.new) }
    ensures reads_counted { S.faults source.old ≤ S.faults source.new }
    ensures writes_counted { K.faults sink.old ≤ K.faults sink.new }
    ensures answers { let told = world_by S.left K.taken S.faults K.faults in
        Answers request (told (streams source.old sink.old)) (told (streams source.new sink.new)) result }
{
    let input = match read_input(alloc, TRACE_LIMIT, source) {
        Ok(input) => input,
        Err(error) => return Status::from(error),
    };
    match text_of(alloc, request, &input) {
        Ok(text) => match write_text(sink, &text) {
            Ok(()) => Status::Drawn,
            Err(_) => Status::WriteFault,
        },
        Err(status) => status,
    }
}
