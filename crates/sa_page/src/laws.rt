// What holds of pages: each contract is a law, and the body does nothing.
ghost use Rattle.sa_page.specs.Laws.{ShownIsOne, PageIsOne, NamedBreaks, BreakIsNamed};

/// What a page shows of events is determined by the workload and the trace.
pub fn shown_is_one()
    ensures { ShownIsOne }
{}

/// A workload, a trace text and rules have one page: its whole text is determined.
pub fn pages_are_one()
    ensures { PageIsOne }
{}

/// A record that a page names breaks the rule, and a break of a rule that is of records alone has one.
pub fn named_records_break()
    ensures breaks { NamedBreaks }
    ensures named { BreakIsNamed }
{}
