// A load, a run and a written formula over the driver's buffers where these are long enough: decode, the call over tables, encode. The crate `driver` tests the
// sizes first.
#![tactic(auto)]

pub mod load;
pub mod run;
pub mod write;
