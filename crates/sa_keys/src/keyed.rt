// User levels whose values and contexts have codes.
ghost use Rattle.std.specs.Prelude.{◌≡◌, ℕ, ◌++◌, List, Option, Some, OnOk};
ghost use Rattle.sa_spaces.specs.Space.{SpaceView};
ghost use Rattle.sa_abstract.specs.Setting.{Setting};
ghost use Rattle.sa_abstract.specs.Calls.{Contexts};
ghost use Rattle.sa_outlook.specs.UserLevels.{IgnoresNumbers};
ghost use Rattle.sa_package_keys.specs.Codes.{IsPrefixCode};
ghost use Rattle.sa_package_keys.specs.Values.{IsStood, TellsValues};

use sa_abstract::UserLevel;
use std::alloc::{AllocError, Global};

/// A user level that looks at no number of an activation or an event, and of which bytes say the value, and of a context what matters.
pub trait Keyed: UserLevel {
    /// What matters of a context of a space that is defined so.
    ghost plain: { Option SpaceView → Self.Ctx → Self.Ctx };

    /// The value was made for a space that is defined so.
    ghost is_made: { Option SpaceView → Self → Type 0 };

    /// The bytes of a value, and of a context without what does not matter.
    ghost value_key: { Self → List ℕ };

    ghost context_key: { Self.Ctx → List ℕ };

    /// The cells of the value's space.
    ghost cells_of: { Self → List ℕ };

    /// The cells of the value's space, in order.
    fn cells(&self) -> &[u64]
        ensures { result.now ≡ cells_of self.now };

    /// Adds the bytes of the value. Fails only where memory runs out.
    fn put_value(&self, alloc: Global, key: &mut Vec<u8>) -> Result<(), AllocError>
        requires { IsStood Self.stands self.now }
        ensures { OnOk result (key.new.items ≡ key.old.items ++ value_key self.now) };

    /// Adds the bytes of what matters of a context of the value's space. Fails only where memory runs out.
    fn put_context(&self, ctx: &Self::Ctx, key: &mut Vec<u8>) -> Result<(), AllocError>
        ensures { (s : Setting) (e : ℕ) (others : Contexts Self.Ctx)
            → Self.stands s e self.now others
            → OnOk result (key.new.items
            ≡ key.old.items ++ context_key (plain (Some s.def) ctx.now)) };

    /// No number decides.
    ghost ignores_numbers: { IgnoresNumbers Self.calls plain is_made };

    /// The bytes say the value, and the context.
    ghost tells_values: { TellsValues Self.stands is_made value_key };

    ghost tells_contexts: { IsPrefixCode context_key };
}
