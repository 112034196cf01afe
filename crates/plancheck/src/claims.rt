// Whether claimed answers hold for a plan. Assumes nothing.
ghost use Rattle.std.specs.Prelude.{◌≡◌, take, pos, Some, MatchResult};
ghost use Rattle.rows.specs.Limits.{faders};
ghost use Rattle.rows.specs.Rows.{constraints};
ghost use Rattle.plans.specs.Plans.{plan_view};
ghost use Rattle.plantext.specs.Padding.{padded};
ghost use Rattle.plancheck.specs.Claims.{terms_complaint, weights_complaint, PresetJudged, ClashJudged, PresetChecked, ClashChecked};

use crate::complaint::{Complaint, Counted};
use crate::numbers::{denominator_of, first_six, narrow_each};
use crate::verdict::{ClashVerdict, PresetVerdict};
use crate::width::check_width;
use plans::Plan;
use plantext::Numbers;
use rows::clashes::{clash_flaw, column, total};
use rows::flaw::ClashFlaw;
use rows::preset::Preset;
use rows::row::Row;
use rows::weights::Weights;

// The preset that the numbers say.
fn preset_of(numbers: &Numbers, denominator: i64) -> Result<Preset, Complaint>
    ensures { MatchResult result (λ p. (p.numerators ≡ take faders (padded numbers.now)) × (pos p.denominator ≡ denominator)) (λ e. terms_complaint (take faders (padded numbers.now)) denominator ≡ Some e) }
{
    let values = first_six(numbers);
    let numerators = narrow_each(&values).map_err(Complaint::Numerator)?;
    let denominator = denominator_of(denominator).ok_or(Complaint::Denominator)?;
    Ok(Preset {
        numerators,
        denominator,
    })
}

fn preset_verdict(preset: &Preset, rows: &[Row]) -> PresetVerdict
    ensures { PresetJudged preset.now.numerators preset.now.denominator (constraints rows.now) result }
{
    match preset.first_unmet(rows) {
        Some(i) => PresetVerdict::Unmet(i, preset.sum(&rows[i])),
        None => PresetVerdict::Holds(preset.shared_divisor()),
    }
}

// A preset with a numerator for each fader.
pub fn check_preset(
    plan: &Plan,
    numbers: &Numbers,
    denominator: i64,
) -> Result<PresetVerdict, Complaint>
    ensures { PresetChecked numbers.now denominator (plan_view plan.now) result }
{
    check_width(plan, numbers, Counted::Numerators, plan.count as usize)?;
    let preset = preset_of(numbers, denominator)?;
    let list = plan.sounding();
    Ok(preset_verdict(&preset, list.as_slice()))
}

// The weights that the numbers say.
fn weights_of(numbers: &Numbers) -> Result<Weights, Complaint>
    ensures { MatchResult result (λ w. w.values ≡ padded numbers.now) (λ e. weights_complaint (padded numbers.now) ≡ Some e) }
{
    let values = narrow_each(numbers.places()).map_err(Complaint::Weight)?;
    Ok(Weights { values })
}

fn clash_verdict(weights: &Weights, rows: &[Row]) -> ClashVerdict
    ensures { ClashJudged weights.now.values (constraints rows.now) result }
{
    match clash_flaw(weights, rows) {
        None => ClashVerdict::Holds(total(weights, rows)),
        Some(ClashFlaw::Column(k)) => ClashVerdict::Flawed(
            ClashFlaw::Column(k),
            column(weights, rows, k),
        ),
        Some(flaw) => ClashVerdict::Flawed(flaw, total(weights, rows)),
    }
}

// A clash with a weight for each rule.
pub fn check_clash(plan: &Plan, numbers: &Numbers) -> Result<ClashVerdict, Complaint>
    ensures { ClashChecked numbers.now (plan_view plan.now) result }
{
    let list = plan.sounding();
    let wanted = list.len;
    check_width(plan, numbers, Counted::Weights, wanted)?;
    let weights = weights_of(numbers)?;
    Ok(clash_verdict(&weights, list.as_slice()))
}
