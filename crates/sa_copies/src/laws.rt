//! Laws of the copies alone, over the values that contracts see. No function here does anything.
ghost use Rattle.std.specs.Prelude.{◌≡◌, ◌≢◌, ◌+◌, ℕ, List, ◌∷◌, true, false, ◌⊎◌, ◌↔◌, is_some, Some, slice_get};
ghost use Rattle.sa_base.specs.declared.context.Seen.{Seen};
ghost use Rattle.sa_code.specs.declared.code.Op.TheVariants.{TakePush, Push, TakePop, Pop, Free, Leave, Yield};
ghost use Rattle.sa_code.specs.declared.state.PackageState.{PackageState};
ghost use Rattle.sa_code.specs.declared.state.Frame.{Frame};
ghost use Rattle.sa_code.specs.Micro.{micro, is_resident, CanDo};
ghost use Rattle.sa_copies.specs.Copies.{package_ops, section_at, copy_at};
ghost use Rattle.sa_copies.specs.Runs.{at, run_of, is_effect, is_section_op, IsAlike, IsFault};

use sa_base::PACKAGE_PAGE;

/// The copy law. From a place of a section and from its copy, with whatever is seen at each operation, a run to the
/// end gives the same answers on the way, the same items, the same package state, and the same frame but its place.
pub fn a_copy_does_as_its_section()
    ensures alike { (s : PackageState) (f : Frame) (c d : ℕ) (seen : List Seen)
        → s.code ≡ package_ops → copy_at c ≡ Some d
        → IsAlike (run_of s (at f c) seen) (run_of s (at f d) seen) }

    // Two operations at most lead to the end, where the first finds the package's page.
    ensures leaves { (s : PackageState) (f : Frame) (c d : ℕ) (first second : Seen) (more : List Seen)
        → s.code ≡ package_ops → copy_at c ≡ Some d → c ≢ d → CanDo s (at f c) (slice_get s.code c)
        → is_resident first.pages PACKAGE_PAGE ≡ true
        → slice_get s.code (run_of s (at f c) (first ∷ second ∷ more)).frame.pc ≡ Some Leave }
    ensures yields { (s : PackageState) (f : Frame) (c d : ℕ) (first second : Seen) (more : List Seen)
        → s.code ≡ package_ops → copy_at c ≡ Some d → CanDo s (at f d) (slice_get s.code d)
        → is_resident first.pages PACKAGE_PAGE ≡ true
        → slice_get s.code (run_of s (at f d) (first ∷ second ∷ more)).frame.pc ≡ Some Yield }

    // Where the package's page is absent, neither changes anything.
    ensures faults { (s : PackageState) (f : Frame) (c d pages : ℕ)
        → s.code ≡ package_ops → copy_at c ≡ Some d → is_effect (slice_get s.code c) ≡ true
        → is_resident pages PACKAGE_PAGE ≡ false
        → IsFault s (at f c) (micro s (at f c) pages)
        × IsFault s (at f d) (micro s (at f d) pages) }
{}

/// A place and its copy have the same operation, which asks the same of state and frame. A place has a section
/// exactly where it has a copy, which is exactly where an operation of a section stands there.
pub fn a_copy_has_the_same_operation()
    ensures same { (c d : ℕ) → copy_at c ≡ Some d
        → slice_get package_ops d ≡ slice_get package_ops c }
    ensures asks { (s : PackageState) (f : Frame) (c d : ℕ)
        → s.code ≡ package_ops → copy_at c ≡ Some d
        → CanDo s (at f c) (slice_get s.code c) ↔ CanDo s (at f d) (slice_get s.code d) }
    ensures section { (c d : ℕ) → copy_at c ≡ Some d → section_at d ≡ section_at c }
    ensures again { (c d : ℕ) → copy_at c ≡ Some d → copy_at d ≡ Some d }
    ensures sections { (pc : ℕ) → is_some (section_at pc)
        ≡ is_section_op (slice_get package_ops pc) }
    ensures copies { (pc : ℕ) → is_some (copy_at pc) ≡ is_section_op (slice_get package_ops pc) }
{}

/// After each operation comes the one that follows it in its routine, and an end after each free.
pub fn operations_follow_one_another()
    ensures take_push { (pc : ℕ) → slice_get package_ops pc ≡ Some TakePush
        → slice_get package_ops (pc + 1) ≡ Some Push }
    ensures push { (pc : ℕ) → slice_get package_ops pc ≡ Some Push
        → slice_get package_ops (pc + 1) ≡ Some Free }
    ensures take_pop { (pc : ℕ) → slice_get package_ops pc ≡ Some TakePop
        → slice_get package_ops (pc + 1) ≡ Some Pop }
    ensures pop { (pc : ℕ) → slice_get package_ops pc ≡ Some Pop
        → slice_get package_ops (pc + 1) ≡ Some Free }
    ensures free { (pc : ℕ) → slice_get package_ops pc ≡ Some Free
        → (slice_get package_ops (pc + 1) ≡ Some Leave)
        ⊎ (slice_get package_ops (pc + 1) ≡ Some Yield) }
{}
