// Theorems only, in specs/ and proofs/: how many messages there can be, and how far the counters can go.
#![tactic(auto)]
