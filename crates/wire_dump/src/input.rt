//! What is read.
ghost use Rattle.std.specs.Prelude.{◌≡◌, ◌≤◌, ◌⊎◌, length, Ok, IfOk, IfErr, IsErr};
ghost use Rattle.base64.specs.Engines.{standard_pad_indifferent, url_safe_pad_indifferent};
ghost use Rattle.base64.specs.GeneralPurpose as base64_texts;
ghost use Rattle.hex.specs.Hex as hexadecimal;
ghost use Rattle.wire_dump.specs.Input.{compact};
ghost use Rattle.wire_run.specs.declared.error.RunError.TheVariants.{NotBase64, NotHexadecimal};

use crate::options::{Notation, Options};
use base64::DecodeAllocError;
use base64::engine::general_purpose::{STANDARD_PAD_INDIFFERENT, URL_SAFE_PAD_INDIFFERENT};
use std::alloc::{AllocError, Global};
use std::fs;
use std::io::Read;
use wire_run::{RunError, Source, open_error, read_error};

/// All bytes of the input that the options name.
pub(crate) fn input(rt: &HostRuntime, options: &Options<'_>) -> Result<Vec<u8>, RunError> {
    let written = match options.source {
        Source::File(path) => match fs::open(rt, path) {
            Ok(file) => read(rt.alloc(), file, options.size)?,
            Err(error) => return Err(open_error(error)),
        },
        Source::StandardInput => read(rt.alloc(), rt.stdin(), options.size)?,
    };
    match options.notation {
        Notation::Plain => Ok(written),
        Notation::Hexadecimal => of_hexadecimal(rt.alloc(), &written),
        Notation::Base64 => of_base64(rt.alloc(), &written),
    }
}

/// All bytes of a reader, which has no more than so many.
pub(crate) fn read<R: Read + Drop>(alloc: Global, reader: R, size: u64) -> Result<Vec<u8>, RunError>
    ensures { IfOk result (λ bytes. length bytes.items ≤ size) }
{
    let mut bytes = Vec::new(alloc);
    let answer = reader.take(size.saturating_add(1)).read_to_end(&mut bytes);
    match answer {
        Ok(_) if bytes.len() as u64 > size => Err(RunError::TooLong),
        Ok(_) => Ok(bytes),
        Err(error) => Err(read_error(error)),
    }
}

// Text without its white space.
fn compact(alloc: Global, text: &[u8]) -> Result<Vec<u8>, AllocError>
    ensures { IfOk result (λ kept. kept.items ≡ compact text.now) }
{
    let mut kept = Vec::new(alloc);
    for byte in text {
        if !byte.is_ascii_whitespace() {
            kept.push(*byte)?;
        }
    }
    Ok(kept)
}

// The bytes of text, two digits each; white space is passed over.
fn of_hexadecimal(alloc: Global, text: &[u8]) -> Result<Vec<u8>, RunError>
    ensures ok { IfOk result (λ bytes. hexadecimal.decode_of (compact text.now) ≡ Ok bytes.items) }
    ensures err { IfErr result (λ e. e ≡ NotHexadecimal
        → IsErr (hexadecimal.decode_of (compact text.now))) }
{
    let Ok(digits) = compact(alloc, text) else {
        return Err(RunError::OutOfMemory);
    };
    match hex::decode(alloc, digits.as_slice()) {
        Ok(bytes) => Ok(bytes),
        Err(hex::FromHexError::OutOfMemory) => Err(RunError::OutOfMemory),
        Err(_) => Err(RunError::NotHexadecimal),
    }
}

// The bytes of base64 text, of the alphabet for URLs where it has a digit of that alone; white
// space is passed over.
fn of_base64(alloc: Global, text: &[u8]) -> Result<Vec<u8>, RunError>
    ensures ok { IfOk result (λ bytes.
        (base64_texts.decode_of standard_pad_indifferent (compact text.now) ≡ Ok bytes.items)
        ⊎ (base64_texts.decode_of url_safe_pad_indifferent (compact text.now) ≡ Ok bytes.items)) }
    ensures err { IfErr result (λ e. e ≡ NotBase64
        → IsErr (base64_texts.decode_of standard_pad_indifferent (compact text.now))
        ⊎ IsErr (base64_texts.decode_of url_safe_pad_indifferent (compact text.now))) }
{
    let Ok(digits) = compact(alloc, text) else {
        return Err(RunError::OutOfMemory);
    };
    let decoded = if digits.contains(&b'-') || digits.contains(&b'_') {
        URL_SAFE_PAD_INDIFFERENT.decode(alloc, &digits)
    } else {
        STANDARD_PAD_INDIFFERENT.decode(alloc, &digits)
    };
    match decoded {
        Ok(bytes) => Ok(bytes),
        Err(DecodeAllocError::OutOfMemory) => Err(RunError::OutOfMemory),
        Err(DecodeAllocError::DecodeError(_)) => Err(RunError::NotBase64),
    }
}
