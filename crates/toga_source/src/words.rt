// Words of a source where something is said of a run: instructions and threads.
ghost use Rattle.std.specs.Prelude.{◌≡◌, ◌++◌, OnOk};
ghost use Rattle.toga_source.specs.Names.{program_name};
ghost use Rattle.toga_source.specs.Words.{names_of, in_space, thread_name};

use crate::names::{ProgramNames, SpaceNames};
use sa_base::{SpaceNo, ThreadNo};
use sa_text::print_number;
use std::alloc::AllocError;

/// Appends the name of a thread that runs the program of this number: `PROGRAM#T`, and after that of its space if there are
/// several.
#[tactic(auto, unfolding(crate::specs::Words::thread_name))]
pub fn push_thread_name(
    out: &mut Vec<u8>,
    names: &[SpaceNames],
    s: SpaceNo,
    program: usize,
    t: ThreadNo,
) -> Result<(), AllocError>
    ensures { OnOk result (out.new.items ≡ out.old.items ++ thread_name names.now s program t) }
{
    push_in_space(out, names, s)?;
    push_program_name(out, names, s, program)?;
    out.extend_from_slice(b"#")?;
    print_number(u64::from(t.0), out)
}

// Appends the name of a space before that of something in it, if there are several spaces.
fn push_in_space(out: &mut Vec<u8>, names: &[SpaceNames], s: SpaceNo) -> Result<(), AllocError>
    ensures { OnOk result (out.new.items ≡ out.old.items ++ in_space names.now s) }
{
    if names.len() == 1 {
        return Ok(());
    }
    if let Some(own) = names.get(usize::from(s.0)) {
        out.extend_from_slice(own.name())?;
    }
    out.extend_from_slice(b"/")
}

// Appends the name of the program of this number.
fn push_program_name(
    out: &mut Vec<u8>,
    names: &[SpaceNames],
    s: SpaceNo,
    program: usize,
) -> Result<(), AllocError>
    ensures { OnOk result (out.new.items ≡ out.old.items ++ program_name (names_of names.now s).programs program) }
{
    match names.get(usize::from(s.0)) {
        Some(own) => out.extend_from_slice(ProgramNames::name_at(own.programs(), program)),
        None => Ok(()),
    }
}
