// A line of cases: the job, its sheet made field by field, and the lists that it is given.
#![tactic(auto)]

pub mod case;
pub mod lists;
pub mod sheets;
pub mod words;
