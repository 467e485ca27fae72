// The names of threads, and instructions with their lines.
ghost use Rattle.std.specs.Prelude.{◌≡◌, ◌++◌, OnOk};
ghost use Rattle.toga_say.specs.Names.{labels_of, line_of, place_text, space_word, text_of, thread_name};

use crate::lines::line_at;
use crate::scene::Scene;
use sa_base::{SpaceNo, ThreadNo};
use sa_text::print_number;
use std::alloc::AllocError;
use toga_source::{Label, ProgramNames, SpaceNames, push_instr_text};

/// Appends the name of a space, in front of what is in it, if there are several.
pub(crate) fn push_space(
    out: &mut Vec<u8>,
    scene: &Scene,
    own: &SpaceNames,
) -> Result<(), AllocError>
    ensures { OnOk result (out.new.items ≡ out.old.items ++ space_word scene.now own.now) }
{
    if scene.replay.spaces() <= 1 {
        return Ok(());
    }
    out.extend_from_slice(own.name())?;
    out.extend_from_slice(b"/")
}

/// Appends the name of a thread.
#[tactic(auto, unfolding(crate::specs::Names::thread_name))]
pub(crate) fn push_thread(
    out: &mut Vec<u8>,
    scene: &Scene,
    own: &SpaceNames,
    s: SpaceNo,
    t: ThreadNo,
) -> Result<(), AllocError>
    ensures { OnOk result (out.new.items ≡ out.old.items ++ thread_name scene.now own.now s t) }
{
    let program = usize::from(scene.replay.thread(s, t).program());
    push_space(out, scene, own)?;
    out.extend_from_slice(ProgramNames::name_at(own.programs(), program))?;
    out.extend_from_slice(b"#")?;
    print_number(u64::from(t.0), out)
}

/// Appends the line of the instruction at a place of a thread's program, and the instruction.
#[tactic(auto, unfolding(crate::specs::Names::place_text))]
pub(crate) fn push_place(
    out: &mut Vec<u8>,
    scene: &Scene,
    own: &SpaceNames,
    s: SpaceNo,
    t: ThreadNo,
    place: u16,
) -> Result<(), AllocError>
    ensures { OnOk result (out.new.items ≡ out.old.items ++ place_text scene.now own.now s t place) }
{
    out.extend_from_slice(b"line ")?;
    print_number(line_of(scene, s, t, place), out)?;
    out.extend_from_slice(b", `")?;
    push_text(out, scene, own, s, t, place)?;
    out.extend_from_slice(b"`")
}

// The line of the instruction at a place of a thread's program.
fn line_of(scene: &Scene, s: SpaceNo, t: ThreadNo, place: u16) -> u64
    ensures { result ≡ line_of scene.now s t place }
{
    let program = scene.replay.thread(s, t).program();
    line_at(scene.replay.workload(), scene.lines, s, program, place)
}

// Appends the instruction at a place of a thread's program.
fn push_text(
    out: &mut Vec<u8>,
    scene: &Scene,
    own: &SpaceNames,
    s: SpaceNo,
    t: ThreadNo,
    place: u16,
) -> Result<(), AllocError>
    ensures { OnOk result (out.new.items ≡ out.old.items ++ text_of scene.now own.now s t place) }
{
    let program = usize::from(scene.replay.thread(s, t).program());
    let labels = labels_of(own.programs(), program);
    push_instr_text(out, own, labels, scene.replay.instr_of(s, t, place))
}

// The labels of the program of this number.
fn labels_of(programs: &[ProgramNames], number: usize) -> &[Label]
    ensures { result.now ≡ labels_of programs.now number }
{
    match programs.get(number) {
        Some(program) => program.labels(),
        None => &[],
    }
}
