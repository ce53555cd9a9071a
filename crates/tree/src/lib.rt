// Theorems only, in specs/ and proofs/: loans form a tree under the room that has the token or is about to get it.
#![tactic(auto)]
