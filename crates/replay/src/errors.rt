// Why no world is made of an image.
ghost use Rattle.std.specs.Prelude.{◌≡◌};
ghost use Rattle.replay.specs.declared.errors.StartError.TheVariants as error;

use model::Fault;
use rights::Refusal;

// The image is not taken, or the program gives up.
#[derive(Clone, Copy, Debug, PartialEq, Eq)]
pub enum StartError {
    Refused(Refusal),
    Fault(Fault),
}

impl From<Refusal> for StartError {
    ghost from_gives = { λ refusal e. e ≡ error.Refused refusal };

    fn from(refusal: Refusal) -> StartError {
        StartError::Refused(refusal)
    }
}

impl From<Fault> for StartError {
    ghost from_gives = { λ fault e. e ≡ error.Fault fault };

    fn from(fault: Fault) -> StartError {
        StartError::Fault(fault)
    }
}
