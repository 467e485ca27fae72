// The lines of instructions.
ghost use Rattle.std.specs.Prelude.{◌≡◌, take, drop, slice_index_or};
ghost use Rattle.sa_laws.specs.State.{no_space};
ghost use Rattle.toga_say.specs.Lines.{behind_programs, behind_spaces, line_at};

use sa_base::SpaceNo;
use sa_instr::Program;
use sa_spaces::{SpaceDef, Workload};

/// The line of the instruction at a place of a program of a space; 0 if there is none.
pub(crate) fn line_at(
    workload: &Workload,
    lines: &[u64],
    s: SpaceNo,
    program: u16,
    place: u16,
) -> u64
    ensures { result ≡ line_at workload.now lines.now s program place }
{
    let spaces = workload.spaces();
    let before = behind_spaces(lines, first(spaces, usize::from(s.0)));
    let rest = behind_programs(before, first(programs_of(spaces, s), usize::from(program)));
    match rest.get(usize::from(place)) {
        Some(line) => *line,
        None => 0,
    }
}

// The programs of a space; none, if there is no such space.
fn programs_of(spaces: &[SpaceDef], s: SpaceNo) -> &[Program]
    ensures { result.now ≡ (slice_index_or spaces.now s.0 no_space).programs }
{
    match spaces.get(usize::from(s.0)) {
        Some(space) => space.programs(),
        None => &[],
    }
}

// The lines behind those of the spaces.
fn behind_spaces<'a>(lines: &'a [u64], spaces: &[SpaceDef]) -> &'a [u64]
    ensures { result.now ≡ behind_spaces lines.now spaces.now }
{
    let mut rest = lines;
    for space in spaces {
        rest = behind_programs(rest, space.programs());
    }
    rest
}

// The lines behind those of the programs.
fn behind_programs<'a>(lines: &'a [u64], programs: &[Program]) -> &'a [u64]
    ensures { result.now ≡ behind_programs lines.now programs.now }
{
    let mut rest = lines;
    for program in programs {
        rest = behind(rest, usize::from(program.len()));
    }
    rest
}

// The numbers behind the first ones.
fn behind(numbers: &[u64], count: usize) -> &[u64]
    ensures { result.now ≡ drop count numbers.now }
{
    if count <= numbers.len() {
        &numbers[count..]
    } else {
        &[]
    }
}

// The first ones of a list; all, if there are no more.
fn first<T>(list: &[T], count: usize) -> &[T]
    ensures { result.now ≡ take count list.now }
{
    if count <= list.len() {
        &list[..count]
    } else {
        list
    }
}
