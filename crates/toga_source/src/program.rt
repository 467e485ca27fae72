// The lines of a program: its labels and its instructions.
ghost use Rattle.std.specs.Prelude.{◌≡◌, ◌++◌, OnOk, codes, decimal};
ghost use Rattle.sa_instr.specs.Instr.{reg_number};
ghost use Rattle.std.specs.List.{flat_map};
ghost use Rattle.toga_source.specs.Names.{program_name};
ghost use Rattle.toga_source.specs.Show.{instr_line, instr_text, label_line, operand_word, place_text, place_word, program_text, with_numbers};

use crate::names::{Label, Name, ProgramNames, SpaceNames};
use crate::push::push_name_line;
use sa_instr::{Instr, Operand, Program, Reg};
use sa_text::print_number;
use std::alloc::AllocError;

/// Appends the lines of a program of these names.
#[tactic(auto, unfolding(crate::specs::Show::program_text))]
pub(crate) fn push_program(
    out: &mut Vec<u8>,
    names: &SpaceNames,
    own: &ProgramNames,
    program: &Program,
) -> Result<(), AllocError>
    ensures { OnOk result (out.new.items ≡ out.old.items ++ program_text names.now own.now program.now) }
{
    out.extend_from_slice(b"\n")?;
    push_name_line(out, b"  program", own.name())?;
    push_places(out, names, own.labels(), program)
}

// Appends the lines of each place.
fn push_places(
    out: &mut Vec<u8>,
    names: &SpaceNames,
    labels: &[Label],
    program: &Program,
) -> Result<(), AllocError>
    ensures { OnOk result (out.new.items ≡ out.old.items ++ with_numbers (place_text names.now labels.now) program.now) }
{
    for place in 0..program.len() {
        push_place(out, names, labels, place, program.at(place))?;
    }
    Ok(())
}

// Appends the lines of a place: its labels, and its instruction.
fn push_place(
    out: &mut Vec<u8>,
    names: &SpaceNames,
    labels: &[Label],
    place: u16,
    instr: Instr,
) -> Result<(), AllocError>
    ensures { OnOk result (out.new.items ≡ out.old.items ++ place_text names.now labels.now place instr) }
{
    push_labels(out, labels, place)?;
    push_instr(out, names, labels, instr)
}

// Appends a line for each label of the place.
fn push_labels(out: &mut Vec<u8>, labels: &[Label], place: u16) -> Result<(), AllocError>
    ensures { OnOk result (out.new.items ≡ out.old.items ++ flat_map (label_line place) labels.now) }
{
    for label in labels {
        push_label(out, label, place)?;
    }
    Ok(())
}

// Appends the line of a label, where it is of the place.
fn push_label(out: &mut Vec<u8>, label: &Label, place: u16) -> Result<(), AllocError>
    ensures { OnOk result (out.new.items ≡ out.old.items ++ label_line place label.now) }
{
    if label.place != place {
        return Ok(());
    }
    out.extend_from_slice(b"  ")?;
    out.extend_from_slice(label.name.bytes())?;
    out.extend_from_slice(b":\n")
}

// Appends the line of an instruction.
#[tactic(auto, unfolding(crate::specs::Show::instr_line))]
fn push_instr(
    out: &mut Vec<u8>,
    names: &SpaceNames,
    labels: &[Label],
    instr: Instr,
) -> Result<(), AllocError>
    ensures { OnOk result (out.new.items ≡ out.old.items ++ instr_line names.now labels.now instr) }
{
    out.extend_from_slice(b"    ")?;
    push_instr_text(out, names, labels, instr)?;
    out.extend_from_slice(b"\n")
}

/// Appends an instruction, as its line has it, of a program of these labels, in a space of these names.
pub fn push_instr_text(
    out: &mut Vec<u8>,
    names: &SpaceNames,
    labels: &[Label],
    instr: Instr,
) -> Result<(), AllocError>
    ensures { OnOk result (out.new.items ≡ out.old.items ++ instr_text names.now labels.now instr) }
{
    let parts = instr.parts();
    out.extend_from_slice(parts.operation().form().word)?;
    push_operands(out, names, labels, parts.operands())
}

// Appends each operand after a space.
pub(crate) fn push_operands(
    out: &mut Vec<u8>,
    names: &SpaceNames,
    labels: &[Label],
    operands: &[Operand],
) -> Result<(), AllocError>
    ensures { OnOk result (out.new.items ≡ out.old.items
        ++ flat_map (λ o. codes " " ++ operand_word names.now labels.now o) operands.now) }
{
    for operand in operands {
        out.extend_from_slice(b" ")?;
        push_operand(out, names, labels, *operand)?;
    }
    Ok(())
}

// Appends the word of an operand.
fn push_operand(
    out: &mut Vec<u8>,
    names: &SpaceNames,
    labels: &[Label],
    operand: Operand,
) -> Result<(), AllocError>
    ensures { OnOk result (out.new.items ≡ out.old.items ++ operand_word names.now labels.now operand) }
{
    match operand {
        Operand::Register(register) => push_register(out, register),
        Operand::Value(n) => print_number(n, out),
        Operand::Place(place) => push_place_word(out, labels, place),
        Operand::Cell(n) => out.extend_from_slice(Name::at(names.cells(), usize::from(n))),
        Operand::Program(n) => out.extend_from_slice(ProgramNames::name_at(
            names.programs(),
            usize::from(n),
        )),
        Operand::Mutex(n) => out.extend_from_slice(Name::at(names.mutexes(), usize::from(n))),
        Operand::Semaphore(n) => out.extend_from_slice(Name::at(
            names.semaphores(),
            usize::from(n),
        )),
        Operand::Length(n) => print_number(u64::from(n), out),
        Operand::Page(n) => print_number(u64::from(n), out),
    }
}

// Appends the word of a register.
fn push_register(out: &mut Vec<u8>, register: Reg) -> Result<(), AllocError>
    ensures { OnOk result (out.new.items ≡ out.old.items ++ codes "r" ++ decimal (reg_number register)) }
{
    out.extend_from_slice(b"r")?;
    print_number(u64::from(register.number()), out)
}

// Appends the first label of a place, or its number where it has none.
fn push_place_word(out: &mut Vec<u8>, labels: &[Label], place: u16) -> Result<(), AllocError>
    ensures { OnOk result (out.new.items ≡ out.old.items ++ place_word labels.now place) }
{
    for label in labels {
        if label.place == place {
            return out.extend_from_slice(label.name.bytes());
        }
    }
    print_number(u64::from(place), out)
}
