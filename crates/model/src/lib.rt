// The steps of a microframe as definitions (specs/), for the code of other crates to be proved equal to.
#![tactic(auto)]
