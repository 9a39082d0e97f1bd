// What every answer begins with.
ghost use Rattle.std.specs.Prelude.{◌≡◌};
ghost use Rattle.refusal.specs.Status.{refused, status_of, length_of};

use crate::Refusal;

// The refusal's number, place and record; all 0 where nothing was refused. C's struct has these three numbers, so that no enum stands
// for it; inside a check answers a `Result`.
#[repr(C)]
#[derive(Clone, Copy)]
pub struct Status {
    pub number: u32,
    pub place: usize,
    pub record: usize,
}

impl Status {
    pub const ACCEPTED: Status = Status {
        number: 0,
        place: 0,
        record: 0,
    };
}

impl From<Refusal> for Status {
    ghost from_gives = { λ r s. s ≡ refused r };

    fn from(r: Refusal) -> Status {
        Status {
            number: crate::number_of(r),
            place: crate::place_of(r),
            record: crate::record_of(r),
        }
    }
}

impl From<Result<(), Refusal>> for Status {
    ghost from_gives = { λ check s. s ≡ status_of check };

    fn from(check: Result<(), Refusal>) -> Status {
        match check {
            Ok(()) => Status::ACCEPTED,
            Err(r) => Status::from(r),
        }
    }
}

// How many bytes were written; 0 with a refusal. C's struct has the length beside the status, so that no `Result` stands for it.
#[repr(C)]
#[derive(Clone, Copy)]
pub struct LengthAnswer {
    pub status: Status,
    pub length: usize,
}

impl From<Result<usize, Refusal>> for LengthAnswer {
    ghost from_gives = { λ written answer. answer ≡ length_of written };

    fn from(written: Result<usize, Refusal>) -> LengthAnswer {
        match written {
            Ok(length) => LengthAnswer {
                status: Status::ACCEPTED,
                length,
            },
            Err(r) => LengthAnswer {
                status: Status::from(r),
                length: 0,
            },
        }
    }
}
