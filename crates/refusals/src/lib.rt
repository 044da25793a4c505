// What a refusal is: its number and its place, and names for the numbers.
#![tactic(auto)]

ghost use Rattle.std.specs.Prelude.{◌≡◌};
ghost use Rattle.refusals.specs.Slip.{slip_refused};

pub mod refusal;

use geometry::SlipError;

// A refusal: its number, as in `refusal`, and its place. C may also lend a number that no refusal has, to have it
// listed.
#[derive(Clone, Copy)]
pub struct Refused {
    pub number: u32,
    pub place: u32,
}

impl From<SlipError> for Refused {
    ghost from_gives = { λ e r. r ≡ slip_refused e };

    fn from(e: SlipError) -> Refused {
        match e {
            SlipError::Malformed => Refused::unplaced(refusal::MALFORMED_SLIP),
            SlipError::Outside => Refused::unplaced(refusal::BAD_GEOMETRY),
        }
    }
}

impl Refused {
    // A refusal that names no PEB.
    pub fn unplaced(number: u32) -> Refused
        ensures { result ≡ record { number = number; place = 0 } }
    {
        Refused { number, place: 0 }
    }
}
