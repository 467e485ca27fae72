// What is written for a request: what is drawn of a trace, or the page of a workload and its trace.
ghost use Rattle.std.specs.Prelude.{IfOk, IfErr};
ghost use Rattle.sa_input.specs.declared.limits.TheConstants.{TRACE_LIMIT};
ghost use Rattle.sa_drawing.specs.Drawn.{IsDrawn};
ghost use Rattle.sa_picture.specs.Request.{part_of};
ghost use Rattle.sa_picture.specs.Paged.{HasNoDrawing, IsWritten, IsNotWritten, IsPaged, IsNotPaged};

use crate::request::{Form, Request};
use crate::status::Status;
use sa_base::{RulesName, Unread};
use sa_drawing::{Drawing, NoDrawing, drawn};
use sa_input::{TRACE_LIMIT, parts_of, refusal_of_long};
use sa_page::{PageError, page_of};
use std::alloc::Global;

/// The text that is asked for of the input.
pub(crate) fn text_of(alloc: Global, request: Request, input: &[u8]) -> Result<Vec<u8>, Status>
    ensures ok { IfOk result (λ text. IsWritten request input.now text.items) }
    ensures err { IfErr result (IsNotWritten request input.now) }
{
    match request.form {
        Form::Drawn(drawing) => drawing_of(alloc, drawing, request, input),
        Form::Page(rules) => page_in(alloc, rules, input),
    }
}

// What is drawn of the trace of the input.
fn drawing_of(
    alloc: Global,
    drawing: Drawing,
    request: Request,
    input: &[u8],
) -> Result<Vec<u8>, Status>
    ensures ok { IfOk result (λ text. IsDrawn drawing (part_of request) input.now text.items) }
    ensures err { IfErr result (HasNoDrawing drawing request input.now) }
{
    match drawn(alloc, drawing, request.part(), input) {
        Ok(text) => Ok(text),
        Err(NoDrawing::BadTrace(bad)) => Err(Status::BadTrace(bad)),
        Err(NoDrawing::TooMuch) => Err(Status::TooMuch),
        Err(NoDrawing::OutOfMemory) => Err(Status::OutOfMemory),
    }
}

// The page of the workload and trace of the input, by these rules.
fn page_in(alloc: Global, rules: RulesName, input: &[u8]) -> Result<Vec<u8>, Status>
    ensures ok { IfOk result (λ text. IsPaged rules input.now text.items) }
    ensures err { IfErr result (IsNotPaged input.now) }
{
    if input.len() > TRACE_LIMIT {
        return Err(Status::BadTrace(refusal_of_long(TRACE_LIMIT, input)));
    }
    match parts_of(alloc, input) {
        Ok((workload, second)) => match page_of(alloc, rules, &workload, second) {
            Ok(page) => Ok(page),
            Err(PageError::BadTrace(bad)) => Err(Status::BadTrace(bad)),
            Err(PageError::TooMuch) => Err(Status::TooMuch),
            Err(PageError::OutOfMemory) => Err(Status::OutOfMemory),
        },
        Err(Unread::Bad(bad)) => Err(Status::BadWorkload(bad)),
        Err(Unread::OutOfMemory) => Err(Status::OutOfMemory),
    }
}
