//! The code of a number.

ghost use Rattle.std.specs.Prelude.{◌≡◌, ◌≤◌};
ghost use Rattle.casd_base.specs.Code.{number_of};
ghost use Rattle.grpc_calls.specs.Codes.{code_of};

use casd_base::Code;

/// The code of a status by its number. A number above 16 is no code's and counts as `Unknown`.
pub fn code_of(number: u32) -> Code
    ensures value { result ≡ code_of number }
    ensures number { number ≤ 16 → number_of result ≡ number }
{
    match number {
        0 => Code::Ok,
        1 => Code::Cancelled,
        2 => Code::Unknown,
        3 => Code::InvalidArgument,
        4 => Code::DeadlineExceeded,
        5 => Code::NotFound,
        6 => Code::AlreadyExists,
        7 => Code::PermissionDenied,
        8 => Code::ResourceExhausted,
        9 => Code::FailedPrecondition,
        10 => Code::Aborted,
        11 => Code::OutOfRange,
        12 => Code::Unimplemented,
        13 => Code::Internal,
        14 => Code::Unavailable,
        15 => Code::DataLoss,
        16 => Code::Unauthenticated,
        _ => Code::Unknown,
    }
}
