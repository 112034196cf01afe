// Whether a desk is open, and a line has as many numbers as it should have. Assumes nothing.
ghost use Rattle.std.specs.Prelude.{◌≡◌, length, Some, Option, MatchResult};
ghost use Rattle.plancheck.specs.Widths.{in_width};
ghost use Rattle.plancheck.specs.declared.complaint.Complaint.{Complaint};

use crate::complaint::{Complaint, Counted, Width};
use engine::refusal::Refusal;
use plans::Plan;
use plantext::Numbers;

// What else is wrong with the line is seen only where this is right.
pub fn check_width(
    plan: &Plan,
    numbers: &Numbers,
    what: Counted,
    wanted: usize,
) -> Result<(), Complaint>
    ensures { MatchResult result (λ _. (length numbers.now ≡ wanted) × ((other : Option Complaint) → in_width what plan.now.count numbers.now wanted other ≡ other)) (λ e. (other : Option Complaint) → in_width what plan.now.count numbers.now wanted other ≡ Some e) }
{
    if plan.count == 0 {
        return Err(Complaint::Refused(Refusal::NoPlan));
    }
    let found = numbers.as_slice().len();
    if found != wanted {
        return Err(Complaint::Width(Width {
            what,
            found,
            wanted,
        }));
    }
    Ok(())
}
