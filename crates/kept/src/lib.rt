#![tactic(auto)]

// That a microframe keeps the bounds of a host record, as laws about the definitions (proofs/).
