// The package.
ghost use Rattle.std.specs.Prelude.{◌≡◌};

use sa_package_model::Package;
use std::marker::Model;

/// The FastThreads package of one address space (SOSP 1991, section 4).
#[derive(Drop)]
pub struct FastThreads {
    pub(crate) package: Package,
}

impl Model for FastThreads {
    ghost use Rattle.sa_package_model.specs.declared.package.Package.{Package};

    ghost Value = { Package };

    ghost view = { λ u. u.package };
}

impl FastThreads {
    /// What the package keeps.
    pub fn package(&self) -> &Package
        ensures { result.now ≡ self.now }
    {
        &self.package
    }
}
