// Tables and state in little-endian bytes (document 01, "The four lent tables"), for the driver.
#![tactic(auto)]

pub mod state;
pub mod table;
