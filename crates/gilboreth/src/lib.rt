// The public entries: numbers, byte buffers and items in, a refusal number out. No entry has a requires. C gets them from `gilboreth_c`.
#![tactic(auto)]

pub mod lists;
pub mod messages;
pub mod path;
