// Definitions of the whole pipeline (specs/) and theorems about them (proofs/): no code of its own.
#![tactic(auto)]
