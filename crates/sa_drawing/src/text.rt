// From a trace text to the text of its picture, or of its trace events.
ghost use Rattle.std.specs.Prelude.{◌≡◌, None, MatchOption, IfOk, IfErr};
ghost use Rattle.sa_drawing.specs.Drawn.{first_event, last_event, window_of, drawn_window, HasText, IsTextFor, IsNoneFor, IsDrawn, IsNotDrawn};

use crate::losses::trace_part;
use sa_base::{Bad, Item, Unread};
use sa_input::{TRACE_LIMIT, refusal_of_long};
use sa_shapes::{Window, draw};
use sa_svg::print;
use sa_trace::read;
use sa_trace_events::print_events;
use std::alloc::{AllocError, Global};

/// What is made of a trace.
#[derive(Clone, Copy)]
pub enum Drawing {
    /// A picture.
    Picture,
    /// Trace events.
    Events,
}

/// The part of a trace that a picture shows: the events from one to another, each as it is where none is named, so wide in pixels.
#[derive(Clone, Copy)]
pub struct Part {
    pub from: Option<u64>,
    pub to: Option<u64>,
    pub width: u64,
}

/// Why nothing is drawn.
#[derive(Clone, Copy)]
pub enum NoDrawing {
    /// The input is too long, or no trace text.
    BadTrace(Bad),
    /// There is more to draw than a picture may have, or than trace events may have.
    TooMuch,
    /// Memory ran out.
    OutOfMemory,
}

/// The text of the picture of the trace of which this is the text, or of its trace events.
pub fn drawn(
    alloc: Global,
    drawing: Drawing,
    part: Part,
    input: &[u8],
) -> Result<Vec<u8>, NoDrawing>
    ensures ok { IfOk result (λ text. IsDrawn drawing part input.now text.items) }
    ensures err { IfErr result (IsNotDrawn drawing part input.now) }
{
    if input.len() > TRACE_LIMIT {
        return Err(NoDrawing::BadTrace(refusal_of_long(TRACE_LIMIT, input)));
    }
    match read(alloc, trace_part(input)) {
        Ok(text) => match text_of(alloc, drawing, part, text.trace.items()) {
            Ok(Some(made)) => Ok(made),
            Ok(None) => Err(NoDrawing::TooMuch),
            Err(_) => Err(NoDrawing::OutOfMemory),
        },
        Err(Unread::Bad(bad)) => Err(NoDrawing::BadTrace(bad)),
        Err(Unread::OutOfMemory) => Err(NoDrawing::OutOfMemory),
    }
}

// The text of what is asked for of these items, where there is no more to draw than that may have.
fn text_of(
    alloc: Global,
    drawing: Drawing,
    part: Part,
    items: &[Item],
) -> Result<Option<Vec<u8>>, AllocError>
    ensures { IfOk result (λ made. MatchOption made
        (IsNoneFor drawing part items.now) (λ text. IsTextFor drawing part items.now text.items)) }
{
    match drawing {
        Drawing::Picture => drawing_of(alloc, part, items),
        Drawing::Events => print_events(alloc, items),
    }
}

// The text of the picture of these items, where there is no more to draw than a picture may have.
fn drawing_of(alloc: Global, part: Part, items: &[Item]) -> Result<Option<Vec<u8>>, AllocError>
    ensures { IfOk result (λ drawing. MatchOption drawing
        (drawn_window part items.now ≡ None) (λ text. HasText part items.now text.items)) }
{
    let Some(window) = window_of(part, items) else {
        return Ok(None);
    };
    match draw(alloc, window, items)? {
        Some(picture) => Ok(Some(print(alloc, &picture, items, part.width)?)),
        None => Ok(None),
    }
}

// The events that are drawn: those that are named and the trace has, or all of them.
fn window_of(part: Part, items: &[Item]) -> Option<Window>
    ensures { result ≡ window_of part items.now }
{
    let from = part.from.unwrap_or(first_event(items));
    let last = last_event(items);
    Window::to(from, part.to.unwrap_or(last).min(last))
}

fn first_event(items: &[Item]) -> u64
    ensures { result ≡ first_event items.now }
{
    match items.first() {
        None => 0,
        Some(item) => item.event,
    }
}

fn last_event(items: &[Item]) -> u64
    ensures { result ≡ last_event items.now }
{
    match items.last() {
        None => 0,
        Some(item) => item.event,
    }
}
