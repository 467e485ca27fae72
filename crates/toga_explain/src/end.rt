// How runs end.
ghost use Rattle.std.specs.Prelude.{◌≡◌};
ghost use Rattle.toga_explain.specs.Tables.{end_text};

use sa_base::End;

/// What an end means.
#[tactic(auto, unfolding(crate::specs::Tables::end_text))]
pub(crate) fn end_text(end: End) -> &'static [u8]
    ensures { result.now ≡ end_text end }
{
    match end {
        End::AllDone => b"Every thread is done.",
        End::Stuck => b"Not every thread is done, and nothing can happen any more.",
        End::Budget => b"The run was ended after as many events as `--budget` says.",
    }
}
