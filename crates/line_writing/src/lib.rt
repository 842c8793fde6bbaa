// A block's events become walls: the shape at a position, where an event stands, the walls put into lists.
#![tactic(auto)]

pub mod lists;
pub mod shapes;
pub mod spots;
pub mod writing;
