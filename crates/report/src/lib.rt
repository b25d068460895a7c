// What the sheet program prints: what came and whether it was expected, and what is wrong with a sheet.
#![tactic(auto)]

pub mod fault;
pub mod show;
