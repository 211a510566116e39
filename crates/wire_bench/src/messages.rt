//! Messages: a log of persons, each behind its length, and a tree of nodes.
ghost use Rattle.std.specs.Prelude.{All, IfOk};
ghost use Rattle.wire_bench.specs.Encodable.{IsEncodable};

use std::alloc::Global;
use wire_codec::{DecodeError, Message, borrow_bytes};
use wire_samples::{Node, Person};

/// The texts of the messages of a log.
pub(crate) fn payloads(alloc: Global, log: &[u8]) -> Result<Vec<&[u8]>, DecodeError> {
    let mut payloads = Vec::new(alloc);
    let mut rest = log;
    while !rest.is_empty() {
        payloads.push(borrow_bytes(&mut rest)?)?;
    }
    Ok(payloads)
}

// The persons of a log, none of them too large to be encoded.
fn persons(alloc: Global, log: &[u8]) -> Result<Vec<Person>, DecodeError>
    ensures { IfOk result (λ persons. All IsEncodable persons.items) }
{
    let mut persons = Vec::new(alloc);
    let mut rest = log;
    while !rest.is_empty() {
        let person = Person::decode_length_delimited(alloc, &mut rest)?;
        let Ok(_) = person.try_encoded_len(alloc) else {
            return Err(DecodeError::MessageTooLarge);
        };
        persons.push(person)?;
    }
    Ok(persons)
}

/// A round decodes the persons of a log from their texts. The answer is the xor of their numbers.
#[unsafe(no_mangle)]
pub extern "C" fn wb_person_decode(alloc: Global, bytes: &[u8], rounds: u32) -> u64 {
    let Ok(payloads) = payloads(alloc, bytes) else {
        return 0;
    };
    let mut xor = 0;
    for _ in 0..rounds {
        xor = 0;
        for payload in payloads.iter() {
            let Ok(person) = Person::decode_from_slice(alloc, *payload) else {
                return 0;
            };
            xor ^= i64::from(person.id).cast_unsigned();
        }
    }
    xor
}

/// A round encodes the persons of a log, each behind its length, into a vector that was cleared.
/// The answer is how many bytes it has then.
#[unsafe(no_mangle)]
pub extern "C" fn wb_person_encode(alloc: Global, bytes: &[u8], rounds: u32) -> usize {
    let Ok(persons) = persons(alloc, bytes) else {
        return 0;
    };
    let mut sink = Vec::new(alloc);
    for _ in 0..rounds {
        sink.clear();
        for person in persons.iter() {
            if person.encode_length_delimited(alloc, &mut sink).is_err() {
                return 0;
            }
        }
    }
    sink.len()
}

/// A round decodes the bytes as a node. The answer is how many children it has.
#[unsafe(no_mangle)]
pub extern "C" fn wb_node_decode(alloc: Global, bytes: &[u8], rounds: u32) -> usize {
    let mut children = 0;
    for _ in 0..rounds {
        let Ok(node) = Node::decode_from_slice(alloc, bytes) else {
            return 0;
        };
        children = node.children.len();
    }
    children
}

/// A round encodes the node of the bytes into a vector that was cleared. The answer is how many
/// bytes it has then.
#[unsafe(no_mangle)]
pub extern "C" fn wb_node_encode(alloc: Global, bytes: &[u8], rounds: u32) -> usize {
    let Ok(node) = Node::decode_from_slice(alloc, bytes) else {
        return 0;
    };
    let Ok(_) = node.try_encoded_len(alloc) else {
        return 0;
    };
    let mut sink = Vec::new(alloc);
    for _ in 0..rounds {
        sink.clear();
        if node.encode(alloc, &mut sink).is_err() {
            return 0;
        }
    }
    sink.len()
}
