// The step: the first refusal that applies, or the table that the rules give. What is to be done is planned on the table as it came;
// nothing is written until the step is known to be made.
#![tactic(auto)]

ghost use Rattle.std.specs.Prelude.{◌≡◌};
ghost use Rattle.rules.specs.Step.{step_of};
ghost use Rattle.table.specs.Numbers.{number_in};
ghost use Rattle.table.specs.Tables.{answer_in};
ghost use Rattle.table.specs.Formed.{well_formed};
ghost use Rattle.plan.specs.Plans.{made_of};
ghost use Rattle.step.specs.Writes.{Sized, ending_of, step_as};

mod write;

use plan::Plan;
use rules::Event;
use table::{Refusal, Table, WIRES};
use write::{left, written};

// Whether a plan can be written into a table with so many messages: WORN, FULL, or nothing is in its way.
// Only for step_untested, which is proved: a plan takes out a message that there is.
fn fits(count: usize, p: &Plan) -> Result<(), Refusal>
    requires { Sized count (made_of p.now) }
    ensures { number_in result ≡ ending_of count (made_of p.now) }
{
    if p.done.worn() {
        return Err(Refusal::Worn);
    }
    let kept = left(count, p.taken);
    if p.done.sent().len() > WIRES - kept {
        return Err(Refusal::Full);
    }
    Ok(())
}

// One step by any event, without the test of the table: formed tells whether t is well formed. Told rightly it gives the answer of step.
#[tactic(auto, using(crate::proofs::Ends::told_unplanned, crate::proofs::Ends::step_unplanned, crate::proofs::Ends::told_unfit, crate::proofs::Ends::step_unfit))]
pub fn step_untested(t: Table, e: Event, formed: bool) -> Result<Table, Refusal>
    ensures as_told { answer_in t result ≡ step_as formed t e }
    ensures told_rightly { formed ≡ well_formed t → answer_in t result ≡ step_of t e }
{
    let p = plan::planned(t, e, formed)?;
    fits(t.count, &p)?;
    Ok(written(t, &p))
}

// One step on any table and any event: the table after it, or why it is refused. A refusal is of the table as it came.
pub fn step(t: Table, e: Event) -> Result<Table, Refusal>
    ensures { answer_in t result ≡ step_of t e }
{
    let formed = formed::well_formed(t);
    step_untested(t, e, formed)
}
