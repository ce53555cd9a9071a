// Choices, tests and lists that every crate's definitions and laws share: all of it is in specs/.
#![tactic(auto)]
