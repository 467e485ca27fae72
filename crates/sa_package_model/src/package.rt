use sa_fast::Shared;
use sa_spaces::SpaceDef;

/// What the package of one address space keeps.
#[derive(Drop)]
pub struct Package {
    pub def: SpaceDef,
    /// How many processors the space has at most, 1 to 16.
    pub processors: u16,
    /// How many events the fetch of a page takes, 1 to 1,000.
    pub fetch: u32,
    pub shared: Shared,
}
