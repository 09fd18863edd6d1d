// Why a call on a run is refused.
ghost use Rattle.std.specs.Prelude.{◌≡◌};
ghost use Rattle.faults.specs.Numbers.{run_told};

use crate::told::{Layer, Told};
use thiserror::Error;

// A row out of order is told by its place in the batch.
#[derive(Clone, Copy, Debug, PartialEq, Eq, Error)]
pub enum RunFault {
    #[error("the run is finished")]
    Finished,
    #[error("the batch has more than 256 rows")]
    BatchTooLong,
    #[error("row {0} of the batch is out of order")]
    OutOfOrder(usize),
    #[error("the run would have accepted more rows than it can count")]
    TooManyAccepted,
    #[error("there is no room for the batch among the waiting rows")]
    WaitingFull,
    #[error("there is no room for the batch among the kept rows")]
    KeptFull,
    #[error("there is no room for the keys of the batch")]
    KeysFull,
    #[error("the output has no room for every waiting row")]
    OutputTooShort,
}

impl From<RunFault> for Told {
    ghost from_gives = { λ fault told. told ≡ run_told fault };

    fn from(fault: RunFault) -> Told {
        let (number, place) = match fault {
            RunFault::Finished => (7, 0),
            RunFault::BatchTooLong => (8, 0),
            RunFault::OutOfOrder(row) => (9, row),
            RunFault::TooManyAccepted => (10, 0),
            RunFault::WaitingFull => (11, 0),
            RunFault::KeptFull => (12, 0),
            RunFault::KeysFull => (13, 0),
            RunFault::OutputTooShort => (14, 0),
        };
        Told {
            layer: Layer::Run,
            number,
            place,
        }
    }
}
