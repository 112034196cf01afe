// Why a reduction stops before its end. Assumes nothing.
ghost use Rattle.std.specs.Prelude.{◌≡◌};
ghost use Rattle.substitution.specs.declared.stop.Stop.TheVariants.{Beyond};

use engine::Fault;
use rows::Weights;

#[derive(Clone, Copy)]
pub enum Stop {
    // an equation was a contradiction: the weights of a clash
    Clash(Weights),
    // a number is beyond G
    Beyond(Fault),
}

impl From<Fault> for Stop {
    ghost from_gives = { λ f s. s ≡ Beyond f };

    fn from(fault: Fault) -> Stop {
        Stop::Beyond(fault)
    }
}
