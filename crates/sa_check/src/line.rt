// What is written of a verdict.
ghost use Rattle.std.specs.Prelude.{◌≡◌, ◌++◌, IfOk, OnOk};
ghost use Rattle.sa_check.specs.declared.verdict.Verdict.TheVariants.{Broken};
ghost use Rattle.sa_check.specs.Line.{demand_word, word_of, line_of};

use crate::verdict::Verdict;
use sa_base::RulesName;
use sa_laws::Rule;
use sa_text::print_number;
use std::alloc::{AllocError, Global};

/// The word of a rule by which a trace was judged.
pub fn word(rules: RulesName, rule: Rule) -> &'static [u8]
    ensures { result.now ≡ word_of rules rule }
{
    match rule {
        Rule::Numbered => b"D11",
        Rule::Stepwise => b"D6",
        Rule::ToldOnce => b"U1",
        Rule::ToldInTime => b"U2",
        Rule::WhereOwned => b"U3",
        Rule::AllTold => b"U4",
        Rule::UpcallGiven => b"U5",
        Rule::InterruptNext => b"U6",
        Rule::LineCause => b"U7",
        Rule::WantCause => b"U8",
        Rule::SharesCovered => b"L1",
        Rule::DemandAnnounced => demand_word(rules),
        Rule::TurnsTaken => b"L3",
        Rule::LocksKept => b"L4",
        Rule::OrderKept => b"L5",
        Rule::EndTold => b"D12",
    }
}

// The word of the rule that speaks of demand, and with thread priorities of pairs.
fn demand_word(rules: RulesName) -> &'static [u8]
    ensures { result.now ≡ demand_word rules }
{
    match rules {
        RulesName::Priorities => b"L6",
        _ => b"L2",
    }
}

/// The line that says the verdict by these rules, with its line feed. Its only error is want of memory.
pub fn verdict_line(
    alloc: Global,
    rules: RulesName,
    verdict: Verdict,
) -> Result<Vec<u8>, AllocError>
    ensures { IfOk result (λ line. line.items ≡ line_of rules verdict) }
{
    let mut out = Vec::new(alloc);
    match verdict {
        Verdict::Legal => out.extend_from_slice(b"legal\n")?,
        Verdict::Broken { event, rule } => push_broken(&mut out, rules, event, rule)?,
    }
    Ok(out)
}

// Appends the line of a first break.
fn push_broken(
    out: &mut Vec<u8>,
    rules: RulesName,
    event: u64,
    rule: Rule,
) -> Result<(), AllocError>
    ensures { OnOk result (out.new.items ≡ out.old.items ++ line_of rules (Broken event rule)) }
{
    out.extend_from_slice(b"broken ")?;
    print_number(event, out)?;
    out.extend_from_slice(b" ")?;
    out.extend_from_slice(word(rules, rule))?;
    out.extend_from_slice(b"\n")
}
