// What rules ask.
ghost use Rattle.std.specs.Prelude.{◌≡◌};
ghost use Rattle.toga_explain.specs.Tables.{demand_text, rule_text};

use sa_base::RulesName;
use sa_laws::Rule;

/// What a rule asks of a run, by these rules: sentences, without a line feed.
#[tactic(auto, unfolding(crate::specs::Tables::rule_text))]
pub fn rule_text(rules: RulesName, rule: Rule) -> &'static [u8]
    ensures { result.now ≡ rule_text rules rule }
{
    match rule {
        Rule::Numbered =>
            b"Events are numbered in order from 0, each has a processor of the machine and at least one record, and event 0 is the opening.",
        Rule::Stepwise =>
            b"Each record is a step that the machine can do: a thread that runs is where the record says, and at that instruction.",
        Rule::ToldOnce =>
            b"Each stop, block and return of an activation is told at most once, and only what has happened is told.",
        Rule::ToldInTime =>
            b"Each stop, block and return is told in time: after each event a space with something untold owns no processor, or one whose line is raised, or its upcall page is on its way.",
        Rule::WhereOwned =>
            b"After each event each processor is owned by the space of the activation that runs there, or by none if none runs; a stop or a block names the one that runs, and an upcall comes where none does.",
        Rule::AllTold =>
            b"An upcall is in a fresh activation and tells something: `told add` if the processor has just come to the space, and then all that the space was not told, in order. A number that is given back is of an activation that was handed over.",
        Rule::UpcallGiven =>
            b"Directly after a block comes an upcall of its space on that processor; or, if its upcall page is absent, the processor leaves the space, and the page is fetched.",
        Rule::InterruptNext =>
            b"A raised interrupt line is an interrupt at the next turn of its processor, and nothing else is an interrupt.",
        Rule::LineCause =>
            b"A line is raised only if it is low, and has a cause: the processor's aim has just become a space, or something must be told, or with thread priorities a thread is outranked. The lines that are due are raised.",
        Rule::WantCause =>
            b"A demand is set at the opening, and changes only by a hint of the package, or from 0 to 1 because its space must be told something.",
        Rule::SharesCovered =>
            b"After each event each space has at least its share of aims; processors are aimed at a space only if it has fewer, and in their order.",
        Rule::DemandAnnounced => demand_text(rules),
        Rule::TurnsTaken =>
            b"Each event is one of those that may come then, with the records that belong to it.",
        Rule::LocksKept =>
            b"A thread is put into a ready list, or taken from it, under the lock of the list, which one activation has at a time; a section that was cut off goes on in its copy.",
        Rule::OrderKept =>
            b"The thread that is taken is the newest of the processor's own ready list, or the oldest of another; with thread priorities one of the greatest rank, and of these the newest.",
        Rule::EndTold =>
            b"No event comes after the end, and the last line says how and after how many events the run ended.",
    }
}

// What is asked of demand.
#[tactic(auto, unfolding(crate::specs::Tables::demand_text))]
fn demand_text(rules: RulesName) -> &'static [u8]
    ensures { result.now ≡ demand_text rules }
{
    match rules {
        RulesName::Priorities =>
            b"With thread priorities, demand is announced, and no thread goes on while a ready thread that outranks a running one of its space is left waiting.",
        _ =>
            b"With FastThreads, demand is announced: an activation runs an instruction, or looks for a thread, only after it has made ready what it has in hand, and its space has announced as many processors as it can use.",
    }
}
