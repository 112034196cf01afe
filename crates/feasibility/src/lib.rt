// That it is decidable whether some levels meet a list of rows. The crate computes nothing that the box uses: it shows that promises
// which speak of "no levels meet the rules" always have a case. It sees the crates `integers` and `rows`.
#![tactic(auto)]

ghost use Rattle.feasibility.specs.Deciding.{Decidable};

// States that every list of rows is met by some levels or by none, and which of the two is decided. It computes nothing.
pub fn feasibility_is_decidable()
    ensures { Decidable }
{}
