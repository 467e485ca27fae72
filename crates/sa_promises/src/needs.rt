//! What the theorems of this crate need of a user level's rules, and that either package's rules meet it. No function here does
//! anything.
ghost use Rattle.sa_promises.specs.Needs.{TellsBehindUps, KeepsListsApart, KnowsHolders, HasForms, AnnouncesDemand};
ghost use Rattle.sa_base.specs.declared.package.PackageName.{PackageName};
ghost use Rattle.sa_ranks.specs.Packages.{rules_of};

/// Each package tells behind ups, keeps lists apart, and knows holders; its steps have forms, and it announces its demand.
pub fn packages_meet_needs()
    ensures tells { (which : PackageName) → TellsBehindUps (rules_of which) }
    ensures apart { (which : PackageName) → KeepsListsApart (rules_of which) }
    ensures knows { (which : PackageName) → KnowsHolders (rules_of which) }
    ensures forms { (which : PackageName) → HasForms (rules_of which) }
    ensures announces { (which : PackageName) → AnnouncesDemand (rules_of which) }
{}
