// The operations of instructions.
ghost use Rattle.std.specs.Prelude.{◌≡◌, ◌≤◌, ◌↔◌, length, IsTrue, IfSome, IfNone};
ghost use Rattle.sa_instr.specs.Operation.{form_of, IsNoWord};

use crate::operand::OperandKind;

/// What an instruction does, named as the instruction is.
#[derive(Clone, Copy)]
pub enum Operation {
    Compute,
    Set,
    Add,
    Sub,
    Jnz,
    Load,
    Store,
    Out,
    Fork,
    Join,
    Lock,
    Unlock,
    Wait,
    Signal,
    Io,
    Touch,
    End,
}

/// Every operation.
pub const OPERATIONS: [Operation; 17] = [
    Operation::Compute,
    Operation::Set,
    Operation::Add,
    Operation::Sub,
    Operation::Jnz,
    Operation::Load,
    Operation::Store,
    Operation::Out,
    Operation::Fork,
    Operation::Join,
    Operation::Lock,
    Operation::Unlock,
    Operation::Wait,
    Operation::Signal,
    Operation::Io,
    Operation::Touch,
    Operation::End,
];

/// How the instructions of an operation are written.
#[derive(Clone, Copy)]
pub struct OperationForm {
    pub word: &'static [u8],
    /// What the operands are, in order; at most 2.
    pub operands: &'static [OperandKind],
}

impl Operation {
    /// The operation of this word, or `None` where it is no operation's.
    pub fn of_word(word: &[u8]) -> Option<Operation>
        ensures found { IfSome result (λ operation. (form_of operation).word ≡ word.now) }
        ensures none { IfNone result (IsNoWord word.now) }
    {
        for operation in &OPERATIONS {
            if operation.has_word(word) {
                return Some(*operation);
            }
        }
        None
    }

    // Whether the operation has this word.
    fn has_word(self, word: &[u8]) -> bool
        ensures { IsTrue result ↔ ((form_of self).word ≡ word.now) }
    {
        self.form().word == word
    }

    /// How the instructions of this operation are written.
    pub fn form(self) -> OperationForm
        ensures word { result.word.now ≡ (form_of self).word }
        ensures operands { result.operands.now ≡ (form_of self).operands }
        ensures few { length result.operands.now ≤ 2 }
    {
        let (word, operands) = self.written();
        OperationForm { word, operands }
    }

    // The word and the operands of this operation.
    #[inline(always)]
    fn written(self) -> (&'static [u8], &'static [OperandKind])
        ensures { (result.0.now ≡ (form_of self).word)
            × (result.1.now ≡ (form_of self).operands) }
    {
        use OperandKind::{Cell, Length, Mutex, Page, Place, Program, Register, Semaphore, Value};
        match self {
            Operation::Compute => (b"compute", &[]),
            Operation::Set => (b"set", &[Register, Value]),
            Operation::Add => (b"add", &[Register, Register]),
            Operation::Sub => (b"sub", &[Register, Register]),
            Operation::Jnz => (b"jnz", &[Register, Place]),
            Operation::Load => (b"load", &[Register, Cell]),
            Operation::Store => (b"store", &[Register, Cell]),
            Operation::Out => (b"out", &[Register]),
            Operation::Fork => (b"fork", &[Register, Program]),
            Operation::Join => (b"join", &[Register]),
            Operation::Lock => (b"lock", &[Mutex]),
            Operation::Unlock => (b"unlock", &[Mutex]),
            Operation::Wait => (b"wait", &[Semaphore]),
            Operation::Signal => (b"signal", &[Semaphore]),
            Operation::Io => (b"io", &[Length]),
            Operation::Touch => (b"touch", &[Page]),
            Operation::End => (b"end", &[]),
        }
    }
}
