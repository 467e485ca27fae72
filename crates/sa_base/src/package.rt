// The packages that the program knows, and the rules by which it judges.
ghost use Rattle.std.specs.Prelude.{◌≡◌};
ghost use Rattle.sa_base.specs.Package.{package_of, rules_word};

/// The package in each space of a run.
#[derive(Clone, Copy)]
pub enum PackageName {
    /// `fast`: FastThreads.
    FastThreads,
    /// `prio`: FastThreads with thread priorities.
    Priorities,
}

/// The package that the word names: `None` exactly if it names none.
pub fn read_package(word: &[u8]) -> Option<PackageName>
    ensures { result ≡ package_of word.now }
{
    if word == b"fast".as_slice() {
        return Some(PackageName::FastThreads);
    }
    if word == b"prio".as_slice() {
        return Some(PackageName::Priorities);
    }
    None
}

/// By whose rules a trace is judged.
#[derive(Clone, Copy)]
pub enum RulesName {
    /// `fast`: those of FastThreads.
    FastThreads,
    /// `prio`: those of FastThreads with thread priorities.
    Priorities,
    /// `any`: those of any user level.
    Any,
}

/// The rules that the word names: `None` exactly if it names none.
pub fn read_rules(word: &[u8]) -> Option<RulesName>
    ensures { result ≡ rules_word word.now }
{
    match read_package(word) {
        Some(PackageName::FastThreads) => Some(RulesName::FastThreads),
        Some(PackageName::Priorities) => Some(RulesName::Priorities),
        None if word == b"any".as_slice() => Some(RulesName::Any),
        None => None,
    }
}
