// Thread priorities as a user level of which bytes say the value.
use crate::keyed::Keyed;
use sa_package_keys::{put_prio_context, put_prio_value};
use sa_prio::PrioThreads;
use sa_prio_model::PrioContext;
use std::alloc::{AllocError, Global};

impl Keyed for PrioThreads {
    ghost use Rattle.sa_package_outlook.specs.Contexts.{plain_prio};
    ghost use Rattle.sa_package_keys.specs.Packages.{prio_value_key, prio_context_key, prio_cells, IsPrio};
    ghost use Rattle.sa_package_keys.proofs.PackageCodes.{prio-tells, prio-context-code};
    ghost use Rattle.sa_package_keys.proofs.Made.{prio-ignores};

    ghost plain = { plain_prio };

    ghost is_made = { IsPrio };

    ghost value_key = { prio_value_key };

    ghost context_key = { prio_context_key };

    ghost cells_of = { prio_cells };

    ghost ignores_numbers = { prio-ignores };

    ghost tells_values = { prio-tells };

    ghost tells_contexts = { prio-context-code };

    fn cells(&self) -> &[u64] {
        self.base().package().shared.sync.cells()
    }

    fn put_value(&self, alloc: Global, key: &mut Vec<u8>) -> Result<(), AllocError> {
        put_prio_value(self, alloc, key)
    }

    fn put_context(&self, ctx: &PrioContext, key: &mut Vec<u8>) -> Result<(), AllocError> {
        put_prio_context(self, ctx, key)
    }
}
