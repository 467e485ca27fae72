// What is said in pieces: words, numbers, spaces and threads.
ghost use Rattle.std.specs.Prelude.{◌≡◌, ◌++◌, OnOk};
ghost use Rattle.toga_verdict.specs.Words.{piece_text, pieces_text};

use crate::source::{push_space_if, push_thread_if};
use sa_base::{ActNo, IoNo, ProcNo, SpaceNo, ThreadNo};
use sa_programs::Programs;
use sa_text::print_number;
use std::alloc::AllocError;
use toga_source::SpaceNames;

/// A piece of what is said.
#[derive(Clone, Copy)]
pub enum Piece {
    /// Words.
    Words(&'static [u8]),
    /// A value.
    Value(u64),
    /// A count, or a place of a program.
    Count(u16),
    /// The number of a processor, or of its list.
    Processor(ProcNo),
    /// The number of an activation.
    Activation(ActNo),
    /// The number of an I/O.
    Io(IoNo),
    /// A space, or none.
    Space(Option<SpaceNo>),
    /// A thread of a space, or none.
    Thread(SpaceNo, Option<ThreadNo>),
}

/// Appends pieces one after another, with these names, and threads of these programs.
pub(crate) fn push_pieces(
    out: &mut Vec<u8>,
    names: &[SpaceNames],
    programs: &Programs,
    pieces: &[Piece],
) -> Result<(), AllocError>
    ensures { OnOk result (out.new.items ≡ out.old.items ++ pieces_text names.now programs.now pieces.now) }
{
    for piece in pieces {
        push_piece(out, names, programs, *piece)?;
    }
    Ok(())
}

// Appends a piece.
fn push_piece(
    out: &mut Vec<u8>,
    names: &[SpaceNames],
    programs: &Programs,
    piece: Piece,
) -> Result<(), AllocError>
    ensures { OnOk result (out.new.items ≡ out.old.items ++ piece_text names.now programs.now piece) }
{
    match piece {
        Piece::Words(words) => out.extend_from_slice(words),
        Piece::Value(n) => print_number(n, out),
        Piece::Count(n) => print_number(u64::from(n), out),
        Piece::Processor(p) => print_number(u64::from(p.0), out),
        Piece::Activation(a) => print_number(a.0, out),
        Piece::Io(io) => print_number(u64::from(io.0), out),
        Piece::Space(s) => push_space_if(out, names, s),
        Piece::Thread(s, t) => push_thread_if(out, names, programs, s, t),
    }
}
