// Where a line leads, by its word and its numbers.
ghost use Rattle.std.specs.Prelude.{◌≡◌, ◌+◌, ◌^◌, true, List, ℕ, [], ◌∷◌, length, slice_index, MatchResult, Ok};
ghost use Rattle.std.specs.Option.{is_some};
ghost use Rattle.sa_instr.specs.Program.{IsProgram};
ghost use Rattle.sa_instr.specs.Operation.{operation_of};
ghost use Rattle.sa_spaces.specs.Space.{IsSpace};
ghost use Rattle.sa_workload.specs.Fields.{index_of};
ghost use Rattle.sa_workload.specs.Position.{AtInstr, IsReached};
ghost use Rattle.sa_workload.specs.Bad.{instr_words};
ghost use Rattle.sa_workload.specs.Next.{draft_from, evict_from, fields_of, step};
ghost use Rattle.sa_workload.specs.Stage.{machine_of, draft_of, at_stage, position_of, AreNumbersOf, Gives};
ghost use Rattle.sa_workload.specs.Rooms.{room_of, space_rooms, evict_rooms, turn_rooms, AreBelow, AllHaveRoom, RoomsAt};
ghost use Rattle.sa_workload.specs.Steps.{expected, after_program as behind_program, after_sem as behind_sem, after_spaces as behind_spaces, space_of_draft, with_program, with_sem};

use crate::cause::Refusal;
use crate::instr::{instr_in, is_end};
use crate::stage::{MachineLine, Reader, SpaceDraft, Stage};
use crate::table::is;
use sa_base::{Cause, ProcNo, SpaceNo};
use sa_instr::Program;
use sa_spaces::{Evict, SpaceDef};
use std::alloc::Global;
use std::mem;

impl Reader {
    /// Goes on after a line of this word and these numbers.
    pub fn step(
        &mut self,
        alloc: Global,
        versions: u16,
        word: &[u8],
        numbers: &[u64],
    ) -> Result<(), Refusal>
        requires reached { IsReached versions (position_of self.old) }
        requires known { is_some (index_of word.now (expected (position_of self.old))) ≡ true }
        requires read { AreNumbersOf (fields_of versions (position_of self.old) word.now) numbers.now }
        requires room { RoomsAt self.old self.old.stage word.now numbers.now }
        ensures { Gives (step (position_of self.old) word.now numbers.now) (position_of self.new) result }
    {
        match self.stage {
            Stage::Machine(line) => {
                self.step_machine(alloc, line, numbers);
                Ok(())
            }
            Stage::Space => {
                self.step_space(alloc, numbers);
                Ok(())
            }
            Stage::Sem => self.step_sem(numbers),
            Stage::Absent => self.step_absent(alloc, word, numbers),
            Stage::Program => {
                self.step_program(alloc, numbers);
                Ok(())
            }
            Stage::Instr => self.step_instr(alloc, versions, word, numbers),
            Stage::Evict => self.step_evict(alloc, word, numbers),
            Stage::Turn => self.step_turn(word, numbers),
            Stage::Closed => Err(Refusal::Because(Cause::BadWord)),
        }
    }

    // Goes on after a line before those of the spaces. Version 1 has no slice.
    fn step_machine(&mut self, alloc: Global, line: MachineLine, numbers: &[u64])
        requires { AreBelow (room_of line ∷ []) numbers.now }
        ensures { (word : List ℕ) → step (at_stage self.old (Stage.Machine line)) word numbers.now ≡ Ok (position_of self.new) }
    {
        let number = numbers[0];
        match line {
            MachineLine::Version => {
                self.header.version = number as u16;
                self.stage = Stage::Machine(MachineLine::Processors);
            }
            MachineLine::Processors => {
                self.header.processors = number as u16;
                self.stage = Stage::Machine(MachineLine::Fetch);
            }
            MachineLine::Fetch => {
                self.header.fetch = number as u32;
                self.header.slice = 0;
                self.stage = Stage::Machine(if self.header.version == 1 {
                    MachineLine::Spaces
                } else {
                    MachineLine::Slice
                });
            }
            MachineLine::Slice => {
                self.header.slice = number as u32;
                self.stage = Stage::Machine(MachineLine::Spaces);
            }
            MachineLine::Spaces => {
                self.header.count = number as u16;
                self.spaces = Vec::new(alloc);
                self.stage = Stage::Space;
            }
        }
    }

    // Goes on after the first line of a space.
    fn step_space(&mut self, alloc: Global, numbers: &[u64])
        requires { AreBelow (space_rooms self.old.header.version) numbers.now }
        ensures { position_of self.new ≡ behind_sem (machine_of self.old.header) self.old.spaces.items
            (draft_from (machine_of self.old.header) numbers.now) }
    {
        let has_patience = self.header.version == 3;
        self.draft = SpaceDraft {
            priority: numbers[0] as u8,
            mutexes: numbers[1] as u16,
            sem_count: numbers[2] as u16,
            cells: numbers[3] as u16,
            program_count: numbers[4] as u16,
            patience: if has_patience { numbers[5] as u16 } else { 1 },
            sems: Vec::new(alloc),
            absent: Vec::new(alloc),
            programs: Vec::new(alloc),
        };
        self.after_sem();
    }

    // Goes on after the first line of a space, or a semaphore.
    fn after_sem(&mut self)
        ensures { position_of self.new
            ≡ behind_sem (machine_of self.old.header) self.old.spaces.items (draft_of self.old.draft) }
    {
        let is_whole = self.draft.sems.len() == usize::from(self.draft.sem_count);
        self.stage = if is_whole { Stage::Absent } else { Stage::Sem };
    }

    // Goes on after `sem`.
    fn step_sem(&mut self, numbers: &[u64]) -> Result<(), Refusal>
        requires { AreBelow (2 ^ 32 ∷ []) numbers.now }
        ensures { Gives (Ok (behind_sem (machine_of self.old.header) self.old.spaces.items
            (with_sem (draft_of self.old.draft) (slice_index numbers.now 0)))) (position_of self.new) result }
    {
        self.draft.sems.push(numbers[0] as u32)?;
        self.after_sem();
        Ok(())
    }

    // Goes on after `absent`, or the first line of the first program.
    fn step_absent(&mut self, alloc: Global, word: &[u8], numbers: &[u64]) -> Result<(), Refusal>
        requires stage { self.old.stage ≡ Stage.Absent }
        requires room { AreBelow (2 ^ 16 ∷ []) numbers.now }
        ensures { Gives (step (at_stage self.old Stage.Absent) word.now numbers.now) (position_of self.new) result }
    {
        if is(word, b"absent") {
            self.draft.absent.push(numbers[0] as u16)?;
            return Ok(());
        }
        self.step_program(alloc, numbers);
        Ok(())
    }

    // Goes on after the first line of a program.
    fn step_program(&mut self, alloc: Global, numbers: &[u64])
        requires { AreBelow (2 ^ 16 ∷ []) numbers.now }
        ensures { position_of self.new ≡ AtInstr (machine_of self.old.header) self.old.spaces.items
            (draft_of self.old.draft) (slice_index numbers.now 0) [] }
    {
        self.len = numbers[0] as u16;
        self.instrs = Vec::new(alloc);
        self.stage = Stage::Instr;
    }

    // Goes on after an instruction; the last one is `end`.
    fn step_instr(
        &mut self,
        alloc: Global,
        versions: u16,
        word: &[u8],
        numbers: &[u64],
    ) -> Result<(), Refusal>
        requires stage { self.old.stage ≡ Stage.Instr }
        requires reached { IsReached versions (position_of self.old) }
        requires known { is_some (index_of word.now instr_words) ≡ true }
        requires read { AreNumbersOf (fields_of versions (position_of self.old) word.now) numbers.now }
        requires room { AllHaveRoom (operation_of word.now) numbers.now }
        ensures { Gives (step (position_of self.old) word.now numbers.now) (position_of self.new) result }
    {
        let instr = instr_in(word, numbers).ok_or(Cause::BadWord)?;
        if self.instrs.len() + 1 != usize::from(self.len) {
            self.instrs.push(instr)?;
            return Ok(());
        }
        if !is_end(&instr) {
            return Err(Refusal::Because(Cause::Missing));
        }
        self.instrs.push(instr)?;
        self.end_program(alloc)
    }

    // Goes on after a whole program.
    fn end_program(&mut self, alloc: Global) -> Result<(), Refusal>
        requires program { IsProgram self.old.instrs.items }
        requires space { length self.old.draft.programs.items + 1 ≡ self.old.draft.program_count
            → IsSpace (space_of_draft (with_program (draft_of self.old.draft) self.old.instrs.items)) }
        ensures { MatchResult result
            (λ _. position_of self.new ≡ behind_program (machine_of self.old.header) self.old.spaces.items
            (with_program (draft_of self.old.draft) self.old.instrs.items))
            (λ refusal. refusal ≡ Refusal.OutOfMemory) }
    {
        let instrs = mem::replace(&mut self.instrs, Vec::new(alloc));
        self.draft.programs.push(Program::new(instrs).unwrap())?;
        if self.draft.programs.len() != usize::from(self.draft.program_count) {
            self.stage = Stage::Program;
            return Ok(());
        }
        let draft = mem::replace(&mut self.draft, SpaceDraft::new(alloc));
        self.spaces.push(space_of(draft))?;
        self.after_space(alloc);
        Ok(())
    }

    // Goes on after a whole space.
    fn after_space(&mut self, alloc: Global)
        ensures { position_of self.new ≡ behind_spaces (machine_of self.old.header) self.old.spaces.items }
    {
        let are_whole = self.spaces.len() == usize::from(self.header.count);
        self.evictions = Vec::new(alloc);
        self.stage = if are_whole {
            Stage::Evict
        } else {
            Stage::Space
        };
    }

    // Goes on after `evict`; another line is after no turns.
    fn step_evict(&mut self, alloc: Global, word: &[u8], numbers: &[u64]) -> Result<(), Refusal>
        requires stage { self.old.stage ≡ Stage.Evict }
        requires room { AreBelow (evict_rooms word.now) numbers.now }
        ensures { Gives (step (at_stage self.old Stage.Evict) word.now numbers.now) (position_of self.new) result }
    {
        if is(word, b"evict") {
            self.evictions.push(evict_of(numbers))?;
            return Ok(());
        }
        self.turns = Vec::new(alloc);
        self.step_turn(word, numbers)
    }

    // Goes on after `turn`, or `close`.
    fn step_turn(&mut self, word: &[u8], numbers: &[u64]) -> Result<(), Refusal>
        requires { AreBelow (turn_rooms word.now) numbers.now }
        ensures { Gives (step (at_stage self.old Stage.Turn) word.now numbers.now) (position_of self.new) result }
    {
        if is(word, b"turn") {
            self.turns.push(ProcNo(numbers[0] as u16))?;
            self.stage = Stage::Turn;
        } else {
            self.stage = Stage::Closed;
        }
        Ok(())
    }
}

// The eviction of these numbers.
fn evict_of(numbers: &[u64]) -> Evict
    requires { AreBelow (2 ^ 64 ∷ 2 ^ 16 ∷ 2 ^ 16 ∷ []) numbers.now }
    ensures { result ≡ evict_from numbers.now }
{
    Evict {
        event: numbers[0],
        space: SpaceNo(numbers[1] as u16),
        page: numbers[2] as u16,
    }
}

// The space of a draft whose programs are whole.
fn space_of(draft: SpaceDraft) -> SpaceDef
    requires { IsSpace (space_of_draft (draft_of draft)) }
    ensures { result ≡ space_of_draft (draft_of draft) }
{
    SpaceDef::new(
        draft.priority,
        draft.mutexes,
        draft.sems,
        draft.cells,
        draft.absent,
        draft.programs,
    )
    .unwrap()
    .with_patience(draft.patience)
    .unwrap()
}
