//! Callers of message types: one under limits, and one that is stored and read again.
ghost use Rattle.std.specs.Prelude.{◌≡◌, ◌-◌, ◌^◌, ◌≤◌, length, OnOk, IfOk};
ghost use Rattle.wire_codec.specs.Limits.{counted, with_elements, with_unknown_bytes};
ghost use Rattle.wire_codec.specs.Taking.{Decodes};
ghost use Rattle.wire_samples.specs.Person.{PersonTakes, default_person, person_value};

use std::alloc::Global;
pub use wire_callers::messages::copied;
use wire_codec::{DecodeError, DecodeOptions, Message};
use wire_samples::{Person, laws};

/// A person from an input that is not trusted: at most 4,096 bytes, and 10 fields that the type
/// does not know.
pub fn person_of(alloc: Global, bytes: &[u8]) -> Result<Person, DecodeError>
    ensures short { OnOk result (length bytes.now ≤ 4096) }
    ensures ok { IfOk result (λ person. Decodes PersonTakes
        (with_unknown_bytes (with_elements (counted 100 10) 33554432) (2 ^ 64 - 1))
        default_person bytes.now (person_value person)) }
{
    DecodeOptions::new()
        .with_max_message_size(4096)
        .with_unknown_field_limit(10)
        .decode_from_slice(alloc, bytes)
}

/// The person that the bytes are, and what is read from its encoding: the same person.
pub fn stored(alloc: Global, bytes: &[u8]) -> Result<(Person, Person), DecodeError>
    ensures same { IfOk result (λ both. person_value both.1 ≡ person_value both.0) }
{
    laws::decoded_persons_fold_back(bytes);
    wire_codec::laws::text_decodes::<Person>();
    wire_codec::laws::taken_in_one_way::<Person>();
    let person = Person::decode_from_slice(alloc, bytes)?;
    let encoded = person
        .try_encode_to_vec(alloc)
        .or(Err(DecodeError::OutOfMemory))?;
    let again = Person::decode_from_slice(alloc, &encoded)?;
    Ok((person, again))
}
