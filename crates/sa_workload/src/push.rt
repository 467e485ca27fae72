// One line of the text: its first word, and the numbers or the operands after it.
ghost use Rattle.std.specs.Prelude.{◌≡◌, ◌∷◌, ◌++◌, map, decimal, OnOk};
ghost use Rattle.std.specs.List.{flat_map};
ghost use Rattle.sa_workload.specs.Text.{operand_word, instr_line, line_text};

use sa_instr::{Instr, Operand};
use sa_text::print_number;
use std::alloc::AllocError;

/// Appends a line of this word and these numbers, with its line feed.
pub fn push_line(out: &mut Vec<u8>, word: &[u8], numbers: &[u64]) -> Result<(), AllocError>
    ensures { OnOk result (out.new.items
        ≡ out.old.items ++ line_text (word.now ∷ map decimal numbers.now)) }
{
    out.extend_from_slice(word)?;
    push_numbers(out, numbers)?;
    out.extend_from_slice(b"\n")
}

// Appends each number after a space.
fn push_numbers(out: &mut Vec<u8>, numbers: &[u64]) -> Result<(), AllocError>
    ensures { OnOk result (out.new.items ≡ out.old.items
        ++ flat_map (λ n. 32 ∷ decimal n) numbers.now) }
{
    for n in numbers {
        out.extend_from_slice(b" ")?;
        print_number(*n, out)?;
    }
    Ok(())
}

/// Appends the line of an instruction, with its line feed.
pub fn push_instr(out: &mut Vec<u8>, instr: Instr) -> Result<(), AllocError>
    ensures { OnOk result (out.new.items ≡ out.old.items ++ line_text (instr_line instr)) }
{
    let parts = instr.parts();
    out.extend_from_slice(parts.operation().form().word)?;
    push_operands(out, parts.operands())?;
    out.extend_from_slice(b"\n")
}

// Appends each operand after a space.
fn push_operands(out: &mut Vec<u8>, operands: &[Operand]) -> Result<(), AllocError>
    ensures { OnOk result (out.new.items ≡ out.old.items
        ++ flat_map (λ o. 32 ∷ operand_word o) operands.now) }
{
    for operand in operands {
        out.extend_from_slice(b" ")?;
        push_operand(out, *operand)?;
    }
    Ok(())
}

// Appends the word of an operand.
fn push_operand(out: &mut Vec<u8>, operand: Operand) -> Result<(), AllocError>
    ensures { OnOk result (out.new.items ≡ out.old.items ++ operand_word operand) }
{
    match operand {
        Operand::Register(register) => {
            out.extend_from_slice(b"r")?;
            print_number(u64::from(register.number()), out)
        }
        Operand::Value(n) => print_number(n, out),
        Operand::Length(n) => print_number(u64::from(n), out),
        Operand::Place(n)
        | Operand::Cell(n)
        | Operand::Program(n)
        | Operand::Mutex(n)
        | Operand::Semaphore(n)
        | Operand::Page(n) => print_number(u64::from(n), out),
    }
}
