// The states that a search keeps.
ghost use Rattle.std.specs.Prelude.{◌≡◌, ◌≤◌, [], None, length, IfOk};
ghost use Rattle.sa_states.specs.Store.{store_of, arrived};

use sa_explore_model::State;
use std::alloc::{AllocError, Global};
use std::collections::HashMap;

/// States in the order in which a search came to them, each with its key.
#[derive(Drop)]
pub struct Store {
    states: Vec<State>,
    // the number of each state by its key
    numbers: HashMap<Vec<u8>, u32>,
}

impl Store {
    /// No states. It cannot fail for want of memory.
    pub fn new(alloc: Global) -> Store
        ensures states { (store_of result).states ≡ [] }
        ensures number { (store_of result).number ≡ (λ key. None) }
    {
        Store {
            states: Vec::new(alloc),
            numbers: HashMap::new(alloc),
        }
    }

    /// The states, in the order in which the search came to them.
    pub fn states(&self) -> &[State]
        ensures { result.now ≡ (store_of self.now).states }
    {
        self.states.as_slice()
    }

    /// The number of the state with this key. A state that is new is kept, where there are fewer than `most`; where there are not, the answer
    /// is `None`. Fails only where memory runs out.
    pub fn arrive(
        &mut self,
        key: Vec<u8>,
        state: State,
        most: u32,
    ) -> Result<Option<u32>, AllocError>
        requires { length (store_of self.old).states ≤ most }
        ensures ok { IfOk result (λ number.
            (store_of self.new, number) ≡ arrived most key.items state (store_of self.old)) }
    {
        if let Some(number) = self.numbers.get(&key) {
            return Ok(Some(*number));
        }
        let number = self.states().len() as u32;
        if number == most {
            return Ok(None);
        }
        self.states.push(state)?;
        self.numbers.insert(key, number)?;
        Ok(Some(number))
    }
}
