//! The box's lists: accounts, offices and sheets, each a register of rows that are found by their name.
#![tactic(auto)]

pub mod lists;
pub mod path;
pub mod row;
pub mod rows;
pub mod table;
