// Lists of micro-operations.
ghost use Rattle.std.specs.Prelude.{◌≡◌, ◌<◌, ◌≤◌, [], ◌∷◌, ◌++◌, length, slice_get, OnSome};
ghost use Rattle.sa_code.specs.Routines.{routine_ops};

use arrayvec::ArrayVec;
use std::marker::Model;

/// One micro-operation of the package's code.
#[derive(Clone, Copy, Default)]
pub enum Op {
    /// Takes the lock of a list to push a thread.
    TakePush,
    /// The effect of a push.
    Push,
    /// Takes the lock of a list to pop a thread.
    TakePop,
    /// The effect of a pop.
    Pop,
    /// Frees the lock of the list.
    Free,
    /// The end of a routine.
    #[default]
    Leave,
    /// The end of a copy: gives control back to the upcall handler.
    Yield,
}

/// How many places a code has at most.
pub const CODE_PLACES: usize = 14;

/// A list of micro-operations, one for each place from 0 on.
#[derive(Drop)]
pub struct Code {
    ops: ArrayVec<Op, CODE_PLACES>,
}

impl Model for Code {
    ghost use Rattle.std.specs.Prelude.{List};
    ghost use Rattle.sa_code.specs.declared.code.Op.{Op};

    ghost Value = { List Op };

    ghost view = { λ c. c.ops.items };
}

impl Code {
    /// The code of these operations.
    pub fn new(ops: &[Op]) -> Code
        requires { length ops.now ≤ CODE_PLACES }
        ensures { result ≡ ops.now }
    {
        let mut code = Code {
            ops: ArrayVec::new(),
        };
        for op in ops {
            code.push(*op);
        }
        code
    }

    /// Adds an operation at the end.
    pub fn push(&mut self, op: Op)
        requires { length self.old < CODE_PLACES }
        ensures { self.new ≡ self.old ++ op ∷ [] }
    {
        self.ops.push(op);
    }

    /// The operations, in the order of their places.
    pub fn ops(&self) -> &[Op]
        ensures { result.now ≡ self.now }
    {
        self.ops.as_slice()
    }

    /// The operation at a place: `None` exactly where there is no such place.
    pub fn at(&self, pc: u16) -> Option<Op>
        ensures op { result ≡ slice_get self.now pc }
        ensures pc { OnSome result (pc < CODE_PLACES) }
    {
        self.ops.get(usize::from(pc)).copied()
    }
}

/// The routines: a push at place 0, and a pop at place 4.
pub fn routines() -> Code
    ensures { result ≡ routine_ops }
{
    Code::new(&[
        Op::TakePush,
        Op::Push,
        Op::Free,
        Op::Leave,
        Op::TakePop,
        Op::Pop,
        Op::Free,
        Op::Leave,
    ])
}
