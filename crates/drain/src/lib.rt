// Theorems only, in specs/ and proofs/: if nobody asks or upgrades any more, the table comes to rest, and everyone has been served.
#![tactic(auto)]
