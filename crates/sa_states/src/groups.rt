// The states that have an end, by their results.
ghost use Rattle.std.specs.Prelude.{◌≡◌, ◌≤◌, ◌<◌, All, OnOk};
ghost use Rattle.sa_explore_model.specs.Results.{Counts};
ghost use Rattle.sa_states.specs.Groups.{groups_of, place_of};

use crate::MAX_STATES;
use std::alloc::AllocError;

/// The states of one result.
#[derive(Drop)]
pub struct Group {
    /// The bytes of the result.
    pub key: Vec<u8>,
    /// The number of the first of them.
    pub first: u32,
    /// How many there are, 1 to 10,000,000.
    pub states: u32,
}

/// Counts a state, which comes after all that were counted, among those of its result. Fails only where memory runs out.
pub fn count_one(groups: &mut Vec<Group>, key: Vec<u8>, at: u32) -> Result<(), AllocError>
    requires few { All (λ g. g.states ≤ at) groups.old.items }
    requires within { at < MAX_STATES }
    ensures { OnOk result (Counts key.items at (groups_of groups.old.items) (groups_of groups.new.items)) }
{
    match place_of(groups.as_slice(), key.as_slice()) {
        Some(place) => {
            groups[place].states += 1;
            Ok(())
        }
        None => {
            groups.push(Group {
                key,
                first: at,
                states: 1,
            })?;
            Ok(())
        }
    }
}

// The place of the group with this key.
fn place_of(groups: &[Group], key: &[u8]) -> Option<usize>
    ensures { result ≡ place_of key.now groups.now }
{
    groups.iter().position(|group| group.key.as_slice() == key)
}
