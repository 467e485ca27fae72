// A source as far as words about its runs need it.
ghost use Rattle.std.specs.Prelude.{◌≡◌, ◌++◌, OnOk, codes, decimal, drop, take, slice_index_or};
ghost use Rattle.sa_laws.specs.State.{no_space};
ghost use Rattle.toga_verdict.specs.Source.{lines_behind, lines_behind_spaces, line_at, labels_of, space_word, space_if, thread_by, thread_word, thread_if};

use sa_base::{SpaceNo, ThreadNo};
use sa_instr::Program;
use sa_programs::Programs;
use sa_spaces::{SpaceDef, Workload};
use sa_text::print_number;
use std::alloc::AllocError;
use std::marker::Model;
use toga_source::{Label, SpaceNames, push_thread_name};

/// A workload with the names of its source, and the line of each of its instructions, in the order of spaces, programs and
/// places.
#[derive(Drop)]
pub struct Source<'a> {
    pub workload: &'a Workload,
    pub names: &'a [SpaceNames],
    pub lines: &'a [u64],
}

impl<'a> Model for Source<'a> {
    ghost use Rattle.toga_verdict.specs.Source.{SourceView};

    ghost Value = { SourceView };

    ghost view = { λ x. record { workload = x.workload.now; names = x.names.now; lines = x.lines.now } };
}

impl<'a> Source<'a> {
    /// The line of the instruction at a place of a program of a space; 0 if there is none.
    pub(crate) fn line_at(&self, s: SpaceNo, program: u16, place: u16) -> u64
        ensures { result ≡ line_at self.now s program place }
    {
        let spaces = self.workload.spaces();
        let lines = lines_behind_spaces(self.lines, first(spaces, usize::from(s.0)));
        let programs = first(programs_of(spaces, s), usize::from(program));
        line_in(lines_behind(lines, programs), usize::from(place))
    }

    /// The labels of a program of a space.
    pub(crate) fn labels(&self, s: SpaceNo, program: u16) -> &[Label]
        ensures { result.now ≡ labels_of self.now.names s program }
    {
        let Some(own) = self.names.get(usize::from(s.0)) else {
            return &[];
        };
        match own.programs().get(usize::from(program)) {
            Some(program) => program.labels(),
            None => &[],
        }
    }
}

// The first of some values, so many or all.
fn first<T>(values: &[T], count: usize) -> &[T]
    ensures { result.now ≡ take count values.now }
{
    if count <= values.len() {
        &values[..count]
    } else {
        values
    }
}

// The programs of a space; none if there is no such space.
fn programs_of(spaces: &[SpaceDef], s: SpaceNo) -> &[Program]
    ensures { result.now ≡ (slice_index_or spaces.now s.0 no_space).programs }
{
    match spaces.get(usize::from(s.0)) {
        Some(space) => space.programs(),
        None => &[],
    }
}

// The line of this number among some; 0 if there is none.
fn line_in(lines: &[u64], place: usize) -> u64
    ensures { result ≡ slice_index_or lines.now place 0 }
{
    match lines.get(place) {
        Some(line) => *line,
        None => 0,
    }
}

// The lines after those of all programs of some spaces.
fn lines_behind_spaces<'a>(lines: &'a [u64], spaces: &[SpaceDef]) -> &'a [u64]
    ensures { result.now ≡ lines_behind_spaces lines.now spaces.now }
{
    let mut rest = lines;
    for space in spaces {
        rest = lines_behind(rest, space.programs());
    }
    rest
}

// The lines after those of some programs.
fn lines_behind<'a>(lines: &'a [u64], programs: &[Program]) -> &'a [u64]
    ensures { result.now ≡ lines_behind lines.now programs.now }
{
    let mut rest = lines;
    for program in programs {
        rest = lines_after(rest, usize::from(program.len()));
    }
    rest
}

// The lines after the first, so many or all.
fn lines_after(lines: &[u64], count: usize) -> &[u64]
    ensures { result.now ≡ drop count lines.now }
{
    if count <= lines.len() {
        &lines[count..]
    } else {
        &[]
    }
}

// Appends a space by its name, or by its number if it has none.
fn push_space(out: &mut Vec<u8>, names: &[SpaceNames], s: SpaceNo) -> Result<(), AllocError>
    ensures { OnOk result (out.new.items ≡ out.old.items ++ space_word names.now s) }
{
    out.extend_from_slice(b"space ")?;
    match names.get(usize::from(s.0)) {
        Some(own) => out.extend_from_slice(own.name()),
        None => print_number(u64::from(s.0), out),
    }
}

/// Appends a space that may be absent.
pub(crate) fn push_space_if(
    out: &mut Vec<u8>,
    names: &[SpaceNames],
    s: Option<SpaceNo>,
) -> Result<(), AllocError>
    ensures { OnOk result (out.new.items ≡ out.old.items ++ space_if names.now s) }
{
    match s {
        None => out.extend_from_slice(b"no space"),
        Some(s) => push_space(out, names, s),
    }
}

/// Appends a thread by its name if its program is known, and else by its number.
pub(crate) fn push_thread(
    out: &mut Vec<u8>,
    names: &[SpaceNames],
    programs: &Programs,
    s: SpaceNo,
    t: ThreadNo,
) -> Result<(), AllocError>
    ensures { OnOk result (out.new.items ≡ out.old.items ++ thread_word names.now programs.now s t) }
{
    push_thread_by(out, names, s, t, programs.program(s, t))
}

// The same, if this is its program.
fn push_thread_by(
    out: &mut Vec<u8>,
    names: &[SpaceNames],
    s: SpaceNo,
    t: ThreadNo,
    program: Option<u16>,
) -> Result<(), AllocError>
    ensures { OnOk result (out.new.items ≡ out.old.items ++ thread_by names.now s t program) }
{
    match program {
        None => push_numbered(out, t),
        Some(program) => push_thread_name(out, names, s, usize::from(program), t),
    }
}

// Appends a thread by its number.
fn push_numbered(out: &mut Vec<u8>, t: ThreadNo) -> Result<(), AllocError>
    ensures { OnOk result (out.new.items ≡ out.old.items ++ (codes "thread " ++ decimal t.0)) }
{
    out.extend_from_slice(b"thread ")?;
    print_number(u64::from(t.0), out)
}

/// Appends a thread that may be absent.
pub(crate) fn push_thread_if(
    out: &mut Vec<u8>,
    names: &[SpaceNames],
    programs: &Programs,
    s: SpaceNo,
    t: Option<ThreadNo>,
) -> Result<(), AllocError>
    ensures { OnOk result (out.new.items ≡ out.old.items ++ thread_if names.now programs.now s t) }
{
    match t {
        None => out.extend_from_slice(b"no thread"),
        Some(t) => push_thread(out, names, programs, s, t),
    }
}
