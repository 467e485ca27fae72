// Which rules hold at an event, and the first that does not.
ghost use Rattle.std.specs.Prelude.{◌≡◌, not, find};
ghost use Rattle.std.specs.List.{list_all};
ghost use Rattle.sa_laws.specs.Rules.{rules};
ghost use Rattle.sa_check.specs.Findings.{found_of};

use sa_laws::Rule;

/// Whether each rule holds at an event, but for the first two, which hold.
#[derive(Clone, Copy)]
pub(crate) struct Findings {
    pub(crate) told_once: bool,
    pub(crate) told_in_time: bool,
    pub(crate) where_owned: bool,
    pub(crate) all_told: bool,
    pub(crate) upcall_given: bool,
    pub(crate) interrupt_next: bool,
    pub(crate) line_cause: bool,
    pub(crate) want_cause: bool,
    pub(crate) shares_covered: bool,
    pub(crate) demand_announced: bool,
    pub(crate) turns_taken: bool,
    pub(crate) locks_kept: bool,
    pub(crate) order_kept: bool,
    pub(crate) end_told: bool,
}

// The rules in their order.
const RULES: [Rule; 16] = [
    Rule::Numbered,
    Rule::Stepwise,
    Rule::ToldOnce,
    Rule::ToldInTime,
    Rule::WhereOwned,
    Rule::AllTold,
    Rule::UpcallGiven,
    Rule::InterruptNext,
    Rule::LineCause,
    Rule::WantCause,
    Rule::SharesCovered,
    Rule::DemandAnnounced,
    Rule::TurnsTaken,
    Rule::LocksKept,
    Rule::OrderKept,
    Rule::EndTold,
];

impl Findings {
    // Whether the rule holds.
    fn has(&self, rule: Rule) -> bool
        ensures { result ≡ found_of self.now rule }
    {
        match rule {
            Rule::Numbered | Rule::Stepwise => true,
            Rule::ToldOnce => self.told_once,
            Rule::ToldInTime => self.told_in_time,
            Rule::WhereOwned => self.where_owned,
            Rule::AllTold => self.all_told,
            Rule::UpcallGiven => self.upcall_given,
            Rule::InterruptNext => self.interrupt_next,
            Rule::LineCause => self.line_cause,
            Rule::WantCause => self.want_cause,
            Rule::SharesCovered => self.shares_covered,
            Rule::DemandAnnounced => self.demand_announced,
            Rule::TurnsTaken => self.turns_taken,
            Rule::LocksKept => self.locks_kept,
            Rule::OrderKept => self.order_kept,
            Rule::EndTold => self.end_told,
        }
    }

    /// The first rule that does not hold.
    #[inline(always)]
    pub(crate) fn first_broken(&self) -> Option<Rule>
        ensures { result ≡ find (λ rule. not (found_of self.now rule)) rules }
    {
        if self.all_hold() {
            return None;
        }
        RULES.iter().copied().find(|rule| !self.has(*rule))
    }

    // Each rule holds.
    fn all_hold(&self) -> bool
        ensures { result ≡ list_all (found_of self.now) rules }
    {
        self.told_once
            && self.told_in_time
            && self.where_owned
            && self.all_told
            && self.upcall_given
            && self.interrupt_next
            && self.line_cause
            && self.want_cause
            && self.shares_covered
            && self.demand_announced
            && self.turns_taken
            && self.locks_kept
            && self.order_kept
            && self.end_told
    }
}
