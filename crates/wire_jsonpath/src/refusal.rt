//! A refusal, with the path to where it stands.
ghost use Rattle.std.specs.Prelude.{◌≡◌, IfOk};
ghost use Rattle.wire_protojson.specs.declared.refusal.ReadError.TheVariants.{Refused};
ghost use Rattle.wire_jsonpath.specs.Places.{IsPathTo};

use crate::path::JsonPath;
use crate::place::path_to;
use std::alloc::{AllocError, Global};
use std::error::Error;
use std::fmt;
use wire_protojson::{ReadError, Refusal};

/// Why a text is refused, with the path to the byte where that stands.
///
/// It is printed as `` `lines[2].quantity` (byte 118): no value of the type ``, and with an empty
/// path as `byte 0: no JSON`.
#[derive(Debug, Drop)]
pub struct Explained {
    pub path: JsonPath,
    pub refusal: Refusal,
}

impl fmt::Display for Explained {
    fn fmt<W: fmt::Write>(&self, f: &mut fmt::Formatter<W>) -> fmt::Result {
        let Explained { path, refusal } = self;
        let Refusal { reason, at } = refusal;
        if path.steps().is_empty() {
            write!(f, "byte {at}: {reason}")
        } else {
            write!(f, "`{path}` (byte {at}): {reason}")
        }
    }
}

impl Error for Explained {}

/// Finds the path of an error that a reader of this text told, with the `levels` that it was given.
/// Where the error is that memory ran out, and where it does for the path, that is the answer.
pub fn explain(
    alloc: Global,
    text: &[u8],
    levels: u32,
    error: ReadError,
) -> Result<Explained, AllocError>
    ensures of { IfOk result (λ told. error ≡ Refused told.refusal) }
    ensures path { IfOk result (λ told. IsPathTo levels text.now told.refusal.at told.path) }
{
    match error {
        ReadError::OutOfMemory => Err(AllocError),
        ReadError::Refused(refusal) => {
            let path = path_to(alloc, text, refusal.at, levels)?;
            Ok(Explained { path, refusal })
        }
    }
}
