// A case's job called on what the case gives, and its answer printed.
#![tactic(auto)]

pub mod answering;
mod printing;
