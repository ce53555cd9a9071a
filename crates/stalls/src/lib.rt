// Theorems only, in specs/ and proofs/: rules that never serve, that forget a room or send a REQUEST in a circle, and how their drains go on or stop.
#![tactic(auto)]
