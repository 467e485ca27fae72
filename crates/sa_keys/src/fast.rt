// FastThreads as a user level of which bytes say the value.
use crate::keyed::Keyed;
use sa_package::FastThreads;
use sa_package_keys::{put_fast_context, put_fast_value};
use sa_package_model::Context;
use std::alloc::{AllocError, Global};

impl Keyed for FastThreads {
    ghost use Rattle.sa_package_outlook.specs.Contexts.{plain};
    ghost use Rattle.sa_package_keys.specs.Packages.{fast_value_key, fast_context_key, fast_cells, IsFast};
    ghost use Rattle.sa_package_keys.proofs.PackageCodes.{fast-tells, fast-context-code};
    ghost use Rattle.sa_package_keys.proofs.Made.{fast-ignores};

    ghost plain = { plain };

    ghost is_made = { IsFast };

    ghost value_key = { fast_value_key };

    ghost context_key = { fast_context_key };

    ghost cells_of = { fast_cells };

    ghost ignores_numbers = { fast-ignores };

    ghost tells_values = { fast-tells };

    ghost tells_contexts = { fast-context-code };

    fn cells(&self) -> &[u64] {
        self.package().shared.sync.cells()
    }

    fn put_value(&self, alloc: Global, key: &mut Vec<u8>) -> Result<(), AllocError> {
        put_fast_value(self, alloc, key)
    }

    fn put_context(&self, ctx: &Context, key: &mut Vec<u8>) -> Result<(), AllocError> {
        put_fast_context(self, ctx, key)
    }
}
