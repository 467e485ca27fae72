//! What keys say. No function here does anything.
ghost use Rattle.sa_keys.specs.Laws.{KeysTellOutlooks, KeysTellLooks, KeysTellOutcomes};

use crate::keyed::Keyed;

/// Of two machines of runs of one workload, those with equal keys have equal outlooks.
pub fn keys_tell_outlooks<U: Keyed>()
    ensures { KeysTellOutlooks U.calls U.plain U.value_key U.context_key }
{}

/// Of two machines of runs of one workload with equal bytes, the outlooks are equal; and each thread has put out the same in both, if runs are
/// told apart by it.
pub fn keys_tell_looks<U: Keyed>()
    ensures { KeysTellLooks U.calls U.plain U.value_key U.context_key }
{}

/// The bytes of an outcome say it.
pub fn keys_tell_outcomes()
    ensures { KeysTellOutcomes }
{}
