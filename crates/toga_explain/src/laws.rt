// What holds of the table: each contract is a law, and the body does nothing.
ghost use Rattle.toga_explain.specs.Laws.{InstructionsAreAmong, RecordsAreAmong, RulesAreAmong, CausesAreAmong, EndsAreAmong, StatusesAreAmong};

/// Each instruction, record, notice, rule, cause of a refusal, end and exit status can be asked for.
pub fn all_is_explained()
    ensures instructions { InstructionsAreAmong }
    ensures records { RecordsAreAmong }
    ensures rules { RulesAreAmong }
    ensures causes { CausesAreAmong }
    ensures ends { EndsAreAmong }
    ensures statuses { StatusesAreAmong }
{}
