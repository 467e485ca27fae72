//! Laws of changes of aims alone. No function here does anything: its clauses are proved for all aims, marks,
//! lines and shares.
ghost use Rattle.std.specs.Prelude.{◌≡◌, ℕ, ◌<◌, ◌≤◌, Bool, ◌&&◌, if◌then◌else◌, is_none, List, length, sum, count_by, Option};
ghost use Rattle.sa_base.specs.declared.number.SpaceNo.{SpaceNo};
ghost use Rattle.sa_share.specs.Share.{share_at};
ghost use Rattle.sa_assign.specs.Aims.{Change, aimed, missing, changes, aims_after};
ghost use Rattle.sa_assign.specs.Reaim.{line_at, raised, lines_after, records_of};
ghost use Rattle.sa_assign.specs.Laws.{AreDue, AreInOrder, is_for, is_changed, is_line_of};

/// Afterwards each space has at least its share of aims, and what it had up to its share.
pub fn shares_are_met()
    ensures met { (spaces s : ℕ) (shares : List ℕ) (marks : List Bool)
        (aims : List (Option SpaceNo))
        → sum shares ≤ length aims → s < spaces
        → share_at shares s ≤ aimed s (aims_after aims (changes spaces shares marks aims)) }
    ensures kept { (spaces s : ℕ) (shares : List ℕ) (marks : List Bool)
        (aims : List (Option SpaceNo))
        → sum shares ≤ length aims → aimed s aims ≤ share_at shares s
        → aimed s aims ≤ aimed s (aims_after aims (changes spaces shares marks aims)) }
{}

/// A processor is aimed at a space only where that has fewer aims than its share. It is the one to choose at
/// that moment, and it had no aim, or that of a space with more than its share at that moment.
pub fn changes_are_due()
    ensures { (spaces : ℕ) (shares : List ℕ) (marks : List Bool)
        (aims : List (Option SpaceNo))
        → sum shares ≤ length aims → AreDue shares marks aims (changes spaces shares marks aims) }
{}

/// Aims are added in the order of the spaces' numbers, to each space as many as it misses.
pub fn aims_are_added_as_they_are_missing()
    ensures order { (spaces : ℕ) (shares : List ℕ) (marks : List Bool)
        (aims : List (Option SpaceNo))
        → AreInOrder 0 (changes spaces shares marks aims) }
    ensures counts { (spaces s : ℕ) (shares : List ℕ) (marks : List Bool)
        (aims : List (Option SpaceNo))
        → sum shares ≤ length aims → s < spaces
        → count_by (is_for s) (changes spaces shares marks aims) ≡ missing shares aims s }
    ensures others { (spaces s : ℕ) (shares : List ℕ) (marks : List Bool)
        (aims : List (Option SpaceNo))
        → sum shares ≤ length aims → spaces ≤ s
        → count_by (is_for s) (changes spaces shares marks aims) ≡ 0 }
{}

/// A line is raised, and recorded once, exactly where an aim changes and the line was low.
pub fn lines_rise_where_they_are_low()
    ensures raised { (event p : ℕ) (lines : List (Option ℕ)) (cs : List Change) → p < length lines
        → line_at (lines_after event lines cs) p
        ≡ (if is_changed p cs then raised event (line_at lines p) else line_at lines p) }
    ensures recorded { (event p : ℕ) (lines : List (Option ℕ)) (cs : List Change) → p < length lines
        → count_by (is_line_of p) (records_of event lines cs)
        ≡ (if is_changed p cs && is_none (line_at lines p) then 1 else 0) }
{}
