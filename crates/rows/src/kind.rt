// How a row compares its sum with its side. Assumes nothing.
ghost use Rattle.std.specs.Prelude.{◌≡◌};
ghost use Rattle.std.specs.Result.{result_ok};
ghost use Rattle.rows.specs.Kinds.{kind_of, number_of};

#[derive(Clone, Copy, PartialEq, Eq, Debug)]
pub enum Kind {
    // the sum is at most the side
    AtMost,
    // the sum is below the side
    Below,
    // the sum equals the side
    Equal,
}

// No kind has the number.
#[derive(Clone, Copy, PartialEq, Eq, Debug)]
pub struct UnknownKind;

// The kinds by their numbers.
impl TryFrom<u8> for Kind {
    type Error = UnknownKind;

    ghost try_from_gives = { λ n r. result_ok r ≡ kind_of n };

    fn try_from(number: u8) -> Result<Kind, UnknownKind> {
        match number {
            0 => Ok(Kind::AtMost),
            1 => Ok(Kind::Below),
            2 => Ok(Kind::Equal),
            _ => Err(UnknownKind),
        }
    }
}

impl From<Kind> for u8 {
    ghost from_gives = { λ k n. n ≡ number_of k };

    fn from(kind: Kind) -> u8 {
        match kind {
            Kind::AtMost => 0,
            Kind::Below => 1,
            Kind::Equal => 2,
        }
    }
}
