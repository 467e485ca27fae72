//! Laws of shares alone. No function here does anything: its clauses are proved for all shares.
ghost use Rattle.std.specs.Prelude.{◌≡◌, ℕ, ◌≤◌, List, length};
ghost use Rattle.sa_share.specs.declared.Claim.{Claim};
ghost use Rattle.sa_share.specs.Share.{share_at, IsFirst, IsShare};
ghost use Rattle.sa_share.specs.Rounds.{shares_of};
ghost use Rattle.sa_share.specs.Fair.{IsSpent, ServesHigherFirst, IsEven, IsLowered};

use sa_base::MAX_SPACES;

/// Whatever the claims and however many the processors, there are shares.
pub fn shares_exist()
    ensures { (processors first : ℕ) (claims : List Claim) → IsFirst first claims
        → (shares : List ℕ) × (length shares ≡ length claims)
        × IsShare processors first claims shares }
{}

/// Giving the processors one after another gives the shares.
pub fn shares_come_one_by_one()
    ensures shares { (processors first : ℕ) (claims : List Claim) → length claims ≤ MAX_SPACES
        → IsFirst first claims
        → IsShare processors first claims (shares_of processors first claims) }
    ensures places { (processors first : ℕ) (claims : List Claim) → length claims ≤ MAX_SPACES
        → IsFirst first claims → length (shares_of processors first claims) ≡ MAX_SPACES }
{}

/// Two sharings of the same processors among the same claims give each space the same.
pub fn shares_are_unique()
    ensures each { (processors first : ℕ) (claims : List Claim) (x y : List ℕ)
        → IsShare processors first claims x → IsShare processors first claims y
        → (s : ℕ) → share_at x s ≡ share_at y s }
    ensures whole { (processors first : ℕ) (claims : List Claim) (x y : List ℕ)
        → IsShare processors first claims x → IsShare processors first claims y
        → length x ≡ length y → x ≡ y }
{}

/// Nothing that is wanted is left over, higher priorities come first, and one priority shares evenly.
pub fn shares_are_fair()
    ensures spent { (processors first : ℕ) (claims : List Claim) (shares : List ℕ)
        → IsShare processors first claims shares → IsSpent processors claims shares }
    ensures higher_first { (processors first : ℕ) (claims : List Claim) (shares : List ℕ)
        → IsShare processors first claims shares → ServesHigherFirst claims shares }
    ensures even { (processors first : ℕ) (claims : List Claim) (shares : List ℕ)
        → IsShare processors first claims shares → IsEven claims shares }
{}

/// A claim that falls, but not below the share of its space, changes no share.
pub fn shares_stay()
    ensures { (processors first : ℕ) (claims lower : List Claim) (shares : List ℕ)
        → IsShare processors first claims shares → IsLowered claims lower shares
        → IsShare processors first lower shares }
{}
