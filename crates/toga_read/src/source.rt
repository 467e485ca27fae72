// The source of a draft.
ghost use Rattle.std.specs.Prelude.{◌≡◌, ◌++◌, IfOk, IfErr, Ok};
ghost use Rattle.toga_draft.specs.Whole.{IsDraft};
ghost use Rattle.toga_draft.specs.Reading.{Fails};
ghost use Rattle.toga_read.specs.Source.{size_fault, sized, source_of};

use crate::names::{lines_of, names_of};
use crate::spaces::workload_of;
use sa_spaces::Workload;
use sa_workload::print;
use std::alloc::Global;
use std::marker::Model;
use toga_diagnostic::{Cause, Fault, Part};
use toga_draft::{Draft, Unread};
use toga_source::SpaceNames;

/// The bytes of the workload text of a source at most.
pub const MAX_TEXT: usize = 1_048_576;

/// What a source says: a workload, the names of what it declares, and the line of each instruction.
#[derive(Drop)]
pub struct Source {
    workload: Workload,
    names: Vec<SpaceNames>,
    lines: Vec<u64>,
}

impl Model for Source {
    ghost use Rattle.toga_read.specs.SourceFields.{SourceView};

    ghost Value = { SourceView };

    ghost view = { λ s. record { workload = s.workload; names = s.names.items; lines = s.lines.items } };
}

impl Source {
    /// A source of this workload, these names and these lines.
    pub(crate) fn new(workload: Workload, names: Vec<SpaceNames>, lines: Vec<u64>) -> Source
        ensures { result ≡ record { workload = workload; names = names.items; lines = lines.items } }
    {
        Source {
            workload,
            names,
            lines,
        }
    }

    /// The workload.
    pub fn workload(&self) -> &Workload
        ensures { result.now ≡ self.now.workload }
    {
        &self.workload
    }

    /// The names of the spaces, in their order.
    pub fn names(&self) -> &[SpaceNames]
        ensures { result.now ≡ self.now.names }
    {
        self.names.as_slice()
    }

    /// The line of each instruction, from 1, in the order of the spaces, of their programs and of the places.
    pub fn lines(&self) -> &[u64]
        ensures { result.now ≡ self.now.lines }
    {
        self.lines.as_slice()
    }
}

/// The source of a draft, or the first fault of a name in the order of the lines, or that its workload text is too long.
#[tactic(auto, unfolding(crate::specs::Source::source_of))]
pub(crate) fn source_of(alloc: Global, draft: &Draft) -> Result<Source, Unread>
    requires { IsDraft draft.now }
    ensures ok { IfOk result (λ source. source_of draft.now ≡ Ok source) }
    ensures err { IfErr result (λ e. Fails e (source_of draft.now)) }
{
    let workload = workload_of(alloc, draft)?;
    sized(alloc, draft, workload)
}

// The source of this workload, if its text is not too long.
#[tactic(auto, unfolding(crate::specs::Source::sized))]
fn sized(alloc: Global, draft: &Draft, workload: Workload) -> Result<Source, Unread>
    ensures ok { IfOk result (λ source. sized draft.now workload ≡ Ok source) }
    ensures err { IfErr result (λ e. Fails e (sized draft.now workload)) }
{
    let size = print(alloc, &workload)?.len();
    if size > MAX_TEXT {
        return Err(Unread::Wrong(size_fault(draft.last, size)));
    }
    let names = names_of(alloc, &draft.spaces)?;
    let lines = lines_of(alloc, &draft.spaces)?;
    Ok(Source::new(workload, names, lines))
}

// The fault of a workload text of so many bytes.
fn size_fault(line: u64, size: usize) -> Fault
    ensures { result ≡ size_fault line size }
{
    Fault {
        line,
        column: 1,
        width: 1,
        cause: Cause::Part(Part::Size(size as u64)),
    }
}
