// The step with its rules left open, for crates that show what wrong rules lead to: all of it is in specs/.
#![tactic(auto)]
