//! Why a run fails, and its status.
ghost use Rattle.std.specs.Prelude.{◌≡◌, ◌≢◌};
ghost use Rattle.std.specs.IoError.{error_kind};
ghost use Rattle.std.specs.Process.{exit_status};
ghost use Rattle.wire_run.specs.Outcome.{error_status, run_status};

use crate::source::Source;
use std::alloc::AllocFailed;
use std::io;
use std::io::ErrorKind;
use std::process::ExitCode;

/// Why a run does not do all that it was asked for. Each cause has a status of its own.
#[derive(Drop)]
pub enum RunError {
    /// The bytes are broken, and the line of where and why was printed.
    Broken,
    /// The words of the command line are none, and the line of why was printed.
    Usage,
    /// The input cannot be opened.
    NotOpened(io::Error),
    ReadFailed(io::Error),
    TooLong,
    NotHexadecimal,
    NotBase64,
    WriteFailed(io::Error),
    /// Nobody reads the output any more.
    BrokenPipe,
    OutOfMemory,
    /// A file is no descriptor set, and the line of why was printed.
    NoSchema,
    /// A descriptor set has no such type, and the line of this was printed.
    NoType,
    /// A record does not fit its field, and the line of this was printed.
    Unfit,
}

/// The status of a run. Why it failed is printed on standard error first, where no line was printed
/// yet: with the program, and the input that is at fault or standard output. Nothing is printed
/// where nobody reads the output.
pub fn report(
    rt: &impl Eprint,
    program: &str,
    source: Source<'_>,
    outcome: Result<(), RunError>,
) -> ExitCode
    ensures { exit_status result ≡ run_status outcome }
{
    let Err(error) = outcome else {
        return ExitCode::SUCCESS;
    };
    let status = error.status();
    // The status stays the same where the line cannot be written.
    let _ = match error {
        RunError::Broken | RunError::Usage | RunError::BrokenPipe => Ok(()),
        RunError::NoSchema | RunError::NoType | RunError::Unfit => Ok(()),
        RunError::NotOpened(error) | RunError::ReadFailed(error) => {
            eprintln!(rt; "{program}: {source}: {error}")
        }
        RunError::TooLong => eprintln!(rt; "{program}: {source}: longer than the limit"),
        RunError::NotHexadecimal => eprintln!(rt; "{program}: {source}: no hexadecimal text"),
        RunError::NotBase64 => eprintln!(rt; "{program}: {source}: no base64 text"),
        RunError::WriteFailed(error) => eprintln!(rt; "{program}: standard output: {error}"),
        RunError::OutOfMemory => eprintln!(rt; "{program}: out of memory"),
    };
    ExitCode::from(status)
}

impl RunError {
    /// The status with which a run ends.
    pub fn status(&self) -> u8
        ensures { result ≡ error_status self.now }
    {
        match self {
            RunError::Broken => 1,
            RunError::Usage => 2,
            RunError::NotOpened(_) => 3,
            RunError::ReadFailed(_) => 4,
            RunError::TooLong => 5,
            RunError::NotHexadecimal => 6,
            RunError::WriteFailed(_) => 8,
            RunError::BrokenPipe => 9,
            RunError::OutOfMemory => 10,
            RunError::NotBase64 => 11,
            RunError::NoSchema => 12,
            RunError::NoType => 13,
            RunError::Unfit => 14,
        }
    }
}

/// What it is that an input cannot be opened.
pub fn open_error(error: io::Error) -> RunError
    ensures memory { error_kind error ≡ ErrorKind.OutOfMemory → result ≡ RunError.OutOfMemory }
    ensures other { error_kind error ≢ ErrorKind.OutOfMemory
        → result ≡ RunError.NotOpened error }
{
    match error.kind() {
        ErrorKind::OutOfMemory => RunError::OutOfMemory,
        _ => RunError::NotOpened(error),
    }
}

/// What it is that a read fails.
pub fn read_error(error: io::Error) -> RunError
    ensures memory { error_kind error ≡ ErrorKind.OutOfMemory → result ≡ RunError.OutOfMemory }
    ensures other { error_kind error ≢ ErrorKind.OutOfMemory
        → result ≡ RunError.ReadFailed error }
{
    match error.kind() {
        ErrorKind::OutOfMemory => RunError::OutOfMemory,
        _ => RunError::ReadFailed(error),
    }
}

/// What it is that a write fails.
pub fn write_error(error: io::Error) -> RunError
    ensures memory { error_kind error ≡ ErrorKind.OutOfMemory → result ≡ RunError.OutOfMemory }
    ensures pipe { error_kind error ≡ ErrorKind.BrokenPipe → result ≡ RunError.BrokenPipe }
    ensures other { error_kind error ≢ ErrorKind.OutOfMemory
        → error_kind error ≢ ErrorKind.BrokenPipe → result ≡ RunError.WriteFailed error }
{
    match error.kind() {
        ErrorKind::OutOfMemory => RunError::OutOfMemory,
        ErrorKind::BrokenPipe => RunError::BrokenPipe,
        _ => RunError::WriteFailed(error),
    }
}

impl<T: Drop> From<AllocFailed<T>> for RunError {
    ghost use Rattle.wire_run.specs.declared.error.RunError.TheVariants.{OutOfMemory};

    ghost from_gives = { λ _ e. e ≡ OutOfMemory };

    fn from(_error: AllocFailed<T>) -> RunError {
        RunError::OutOfMemory
    }
}
