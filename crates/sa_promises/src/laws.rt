//! Laws of histories, for those who prove that a run is legal, by either package's rules or by those of any user level. No function here does anything.
ghost use Rattle.std.specs.Prelude.{◌≡◌, ◌≢◌, ◌↔◌, ℕ, List, [], ◌++◌, length, Contains};
ghost use Rattle.sa_base.specs.declared.number.SpaceNo.{SpaceNo};
ghost use Rattle.sa_base.specs.declared.record.Note.{Note};
ghost use Rattle.sa_base.specs.declared.record.Item.{Item};
ghost use Rattle.sa_spaces.specs.Workload.{WorkloadView};
ghost use Rattle.sa_laws.specs.Event.{Event, items_of, events_of};
ghost use Rattle.sa_laws.specs.Readings.{Readings, opening_readings, untold_of};
ghost use Rattle.sa_laws.specs.History.{after_events, readings};
ghost use Rattle.sa_laws.specs.declared.rule.Rule.{Rule};
ghost use Rattle.sa_laws.specs.Ends.{LastLine};
ghost use Rattle.sa_laws.specs.Legal.{IsLegal, IsLegalHistory, IsRight, FirstBreak};
ghost use Rattle.sa_base.specs.declared.package.RulesName.{RulesName};
ghost use Rattle.sa_ranks.specs.Packages.{rules_named};
ghost use Rattle.sa_promises.specs.Words.{StandsUntold};
ghost use Rattle.sa_promises.specs.Headline.{BlocksNameTheirIo};
ghost use Rattle.sa_promises.specs.Reads.{Reads};
ghost use Rattle.sa_promises.specs.Lives.{LivesAreRead};
ghost use Rattle.sa_histories.specs.Lawful.{AreLawful, AreNumbered};

/// The history of a trace has its items, and no others.
pub fn traces_are_histories()
    ensures { (items : List Item) → items_of (events_of items) ≡ items }
{}

/// Events with consecutive numbers, each with some record, are the history of their items.
pub fn histories_are_traces()
    ensures events { (first : ℕ) (events : List Event) → AreNumbered first events
        → events_of (items_of events) ≡ events }
    ensures legal { (which : RulesName) (w : WorkloadView) (events : List Event) → IsLegalHistory (rules_named which) w events
        → IsLegal (rules_named which) w (items_of events) }
{}

/// A history is legal where the laws hold event by event, and so where they hold of a first part, and of the rest after it.
pub fn laws_hold_along_histories()
    ensures along { (which : RulesName) (w : WorkloadView) (events : List Event) → events ≢ []
        → (AreLawful (rules_named which) w (opening_readings w) events ↔ IsLegalHistory (rules_named which) w events) }
    ensures append { (which : RulesName) (w : WorkloadView) (r : Readings) (before more : List Event)
        → AreLawful (rules_named which) w r before
        → AreLawful (rules_named which) w (after_events (rules_named which).inside w r before) more
        → AreLawful (rules_named which) w r (before ++ more) }
{}

/// What the fold reads off a legal trace as owners, aims, demands, fetches, raised lines, untold records, and of lives as in
/// use, running, blocked and taken, is what the plain words say.
pub fn legal_traces_are_read()
    ensures words { (which : RulesName) (w : WorkloadView) (items : List Item) → IsLegal (rules_named which) w items
        → Reads w items (readings (rules_named which).inside w (events_of items)) }
    ensures untold { (which : RulesName) (w : WorkloadView) (items : List Item) → IsLegal (rules_named which) w items
        → (s : SpaceNo) (n : Note)
        → Contains (untold_of (readings (rules_named which).inside w (events_of items)) s) n
        → StandsUntold items (length items) s n }
    ensures lives { (which : RulesName) (w : WorkloadView) (items : List Item) → IsLegal (rules_named which) w items
        → LivesAreRead items (readings (rules_named which).inside w (events_of items)) }
{}

/// A trace has one first break, and none where every rule holds.
pub fn traces_break_once()
    ensures once { (which : RulesName) (w : WorkloadView) (items : List Item) (line : LastLine) (m n : ℕ) (a b : Rule)
        → FirstBreak (rules_named which) w items line m a → FirstBreak (rules_named which) w items line n b
        → (m ≡ n) × (a ≡ b) }
    ensures none { (which : RulesName) (w : WorkloadView) (items : List Item) (line : LastLine) (n : ℕ) (rule : Rule)
        → IsRight (rules_named which) w items line → FirstBreak (rules_named which) w items line n rule → ⊥ }
{}

/// I/Os are numbered from 0 in the order of their block and fetch records, and each block names the number of its I/O.
pub fn legal_runs_number_ios()
    ensures { (which : RulesName) (w : WorkloadView) (items : List Item) → IsLegal (rules_named which) w items
        → BlocksNameTheirIo items }
{}
