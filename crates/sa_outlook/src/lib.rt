//! The outlook of a machine: what decides how it goes on, without the numbers of activations, I/Os and events. Over any user level
//! that looks at no such number, equal outlooks lead to equal outlooks by the same turns, and to the same ends; and from equal outlooks
//! threads put out the same.
#![tactic(auto)]

mod put;

pub use put::{Put, Telling};
