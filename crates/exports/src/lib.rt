// What the exported calls leave in the driver's buffers and what they return (specs/Calls.antt), what is claimed of that (specs/Statements), its proofs. No code:
// the calls are those of the crate `driver`.
#![tactic(auto)]
