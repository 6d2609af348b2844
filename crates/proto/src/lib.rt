// A tree in lent memory: its store checked, walked and searched. How a store is laid out is known to load and load_function, which write one, and to dump too.
#![tactic(auto)]

pub mod child;
pub mod constant;
pub mod debug;
pub mod formed;
pub mod head;
pub mod lists;
pub mod place;
pub mod store;
pub mod walk;
