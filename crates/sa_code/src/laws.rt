//! Laws of the micro-operations alone, over the values that contracts see. No function here does anything.
ghost use Rattle.std.specs.Prelude.{◌≡◌, ◌≢◌, ◌<◌, ◌≤◌, ℕ, List, true, false, length, Some, None, slice_get};
ghost use Rattle.sa_base.specs.declared.number.ProcNo.{ProcNo};
ghost use Rattle.sa_base.specs.declared.number.SpaceNo.{SpaceNo};
ghost use Rattle.sa_base.specs.declared.number.ThreadNo.{ThreadNo};
ghost use Rattle.sa_lists.specs.declared.ranks.Ranks.{Ranks};
ghost use Rattle.sa_lists.specs.ReadyView.{thread, list_of, is_locked, inserted};
ghost use Rattle.sa_code.specs.declared.code.Op.{Op};
ghost use Rattle.sa_code.specs.declared.state.PackageState.{PackageState};
ghost use Rattle.sa_code.specs.declared.state.Frame.{Frame};
ghost use Rattle.sa_code.specs.Micro.{micro, taken, pushed, popped, freed, takes_first, without_chosen, list_in, is_resident, HasList, CanChange, CanPop, CanDo};
ghost use Rattle.sa_code.specs.Changes.{holder_of, IsList, ChangesOnly, IsPackage, opening_package, MovesOn, IsStill, answer_of, is_did};

use sa_base::{MAX_PROCESSORS, MAX_THREADS, PACKAGE_PAGE};

/// Each answer comes exactly where the table says.
pub fn answers_are_those_of_the_table()
    ensures { (s : PackageState) (f : Frame) (pages : ℕ) → CanDo s f (slice_get s.code f.pc)
        → (micro s f pages).done ≡ answer_of (slice_get s.code f.pc)
        (is_locked s.lists (list_in f).0) (is_resident pages PACKAGE_PAGE) }
{}

/// Where an operation was not done, nothing changes. The frame keeps its list, and goes on to the next place
/// exactly where the operation was done.
pub fn a_frame_goes_on_where_its_operation_was_done()
    ensures goes_on { (s : PackageState) (f : Frame) (pages : ℕ)
        → MovesOn f (micro s f pages).frame (is_did (micro s f pages).done) }
    ensures still { (s : PackageState) (f : Frame) (pages : ℕ)
        → is_did (micro s f pages).done ≡ false → IsStill s f (micro s f pages) }
{}

/// An operation changes the list of its frame, with that list's lock and holder, and nothing else.
pub fn other_lists_stay()
    ensures { (s : PackageState) (f : Frame) (pages : ℕ)
        → ChangesOnly (list_in f).0 s (micro s f pages).state }
{}

/// What each operation, where it is done, makes of its list: its threads, its lock and the lock's thread.
pub fn its_list_changes_as_the_table_says()
    ensures taken { (s : PackageState) (f : Frame) (l : ProcNo) → IsPackage s
        → l.0 < length s.lists.lists
        → IsList (taken s f l false).state l.0 (list_of s.lists l.0) true f.thread }
    ensures pushed { (s : PackageState) (f : Frame) (l : ProcNo) (t : ThreadNo) → IsPackage s
        → l.0 < length s.lists.lists
        → IsList (pushed s f true l (Some t)).state l.0 (inserted s.lists.ranks t.0 (list_of s.lists l.0))
        (is_locked s.lists l.0) (holder_of s l.0) }
    ensures popped { (s : PackageState) (f : Frame) (l : ProcNo) (t : ℕ) → IsPackage s
        → l.0 < length s.lists.lists
        → IsList (popped s f true l (Some t)).state l.0 (without_chosen s.lists (takes_first s.lists f.own) l.0)
        (is_locked s.lists l.0) (Some (thread t)) }
    ensures freed { (s : PackageState) (f : Frame) (l : ProcNo) → IsPackage s
        → l.0 < length s.lists.lists
        → IsList (freed s f l).state l.0 (list_of s.lists l.0) false None }
{}

/// What holds of all package states holds of new ones, and each operation keeps it.
pub fn operations_keep_what_holds()
    ensures begin { (space : SpaceNo) (code : List Op) (lists : ℕ) (ranks : Ranks) (threads : ℕ)
        → lists ≤ MAX_PROCESSORS → threads ≤ MAX_THREADS
        → IsPackage (opening_package space code lists ranks threads) }
    ensures step { (s : PackageState) (f : Frame) (pages : ℕ) → IsPackage s
        → CanDo s f (slice_get s.code f.pc) → IsPackage (micro s f pages).state }
{}

/// After a take its list can be changed, and after an effect freed.
pub fn an_operation_leads_to_what_the_next_asks()
    ensures taken { (s : PackageState) (f : Frame) → IsPackage s → HasList s f
        → CanChange (taken s f (list_in f) false).state (taken s f (list_in f) false).frame }
    ensures pushed { (s : PackageState) (f : Frame) (t : ThreadNo) → CanChange s f
        → CanChange (pushed s f true (list_in f) (Some t)).state
        (pushed s f true (list_in f) (Some t)).frame }
    ensures popped { (s : PackageState) (f : Frame) (t : ℕ) → CanChange s f
        → CanChange (popped s f true (list_in f) (Some t)).state
        (popped s f true (list_in f) (Some t)).frame }
{}

/// What is asked of a list lasts where another list changes.
pub fn what_is_asked_of_a_list_lasts()
    ensures change { (s new : PackageState) (f : Frame) (m : ℕ) → ChangesOnly m s new
        → (list_in f).0 ≢ m → CanChange s f → CanChange new f }
    ensures pop { (s new : PackageState) (f : Frame) (m : ℕ) → ChangesOnly m s new
        → (list_in f).0 ≢ m → CanPop s f → CanPop new f }
{}
