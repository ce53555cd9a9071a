// Drains that are run: for n = 1 to 16 the tables that long sessions leave, each drained by deliveries and hand-backs in several orders.
// A line for each n: the longest drain found, the bound that belonged to it, and that nobody waited at the end of any.
#![tactic(auto)]

mod choice; // choice.rt: which event comes next
mod numbers; // numbers.rt: pseudo-random numbers
mod trial; // trial.rt: one drain, and the longest of several

use room::MOST_ROOMS;
use trial::Trial;

fn main(rt: HostRuntime) {
    for n in 1..=MOST_ROOMS {
        let Some(Trial { steps, most }) = trial::longest(n) else {
            let _ = println!(rt; "FAILED");
            return;
        };
        let _ = println!(rt; "n {n}: longest drain {steps}, bound {most}, nobody waits");
    }
}
