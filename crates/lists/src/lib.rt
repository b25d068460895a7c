// The lists over the lent state: how they read, how commands change them, and the two calls that are about them, an
// event and a sending slot. No function leans on its caller.
#![tactic(auto)]

pub mod alloc;
pub mod asked;
pub mod changes;
mod events;
mod list;
mod slots;
mod spans;
mod word;

pub use events::event;
pub use slots::slot;
