//! What the header of a schema's structs says of its calls, and of entries and encodings.
use wire_schema::Words;

/// What the calls of each message do.
pub const TOLD: &str = "\
/* Each `_read` sets the struct to what all of the bytes are: GTV_OK, exactly where they are such a
 * message within the limits. Any other status says that they are not, and then the struct is zero;
 * it is that of the error: GTV_UNEXPECTED_EOF, GTV_VARINT_TOO_LONG, GTV_INVALID_WIRE_TYPE,
 * GTV_INVALID_FIELD_NUMBER, GTV_MESSAGE_TOO_LARGE, GTV_WIRE_TYPE_MISMATCH, GTV_INVALID_UTF8,
 * GTV_RECURSION_LIMIT_EXCEEDED, GTV_INVALID_END_GROUP, GTV_UNKNOWN_FIELD_LIMIT_EXCEEDED or
 * GTV_ELEMENT_MEMORY_LIMIT_EXCEEDED.
 *
 * With no limits named these are 100 levels of messages and groups, 1,000,000 unknown fields, and
 * 33,554,432 bytes for the elements of lists and maps.
$charges$ * Those of the caller, `_read_within`, are `depth`, of which no more than 100 are given;
 * `records`, unknown fields, those in groups counted; and `payload_bytes`, bytes of their
 * length-delimited payloads; lists and maps have no limit of their own there.
 *
 * Each `_fault` answers as `_read`, and `_fault_within` as `_read_within`, and tells where: without
 * GTV_OK `*place` is the byte at which the first record begins that is not taken. All records in
 * front of it are, and no record that begins there is, within what they leave of the limits. These
 * are the records of the message itself: what is refused inside a message or a group is told by
 * the field that holds it. With GTV_OK `*place` is `len`.
 *
 * Each `_size` is how many bytes the encoding of what the struct shows has, or SIZE_MAX where it
 * is more: the records of a message with these fields and no others, each in its shortest form, in
 * the order of their numbers, the field of a oneof at the place of its lowest number; and a list
 * of numbers packed or not as the schema has it. Each `_write` writes it at the front of the room:
 * GTV_OK; or GTV_NO_ROOM, exactly where the room is smaller, and then it stays as it was. `*len`
 * is how many bytes the encoding has, either way. Nothing behind it is written.
 *
 * Of a list the struct has how many elements there are, `_count`. Each `_next_` gives them one
 * after another, by a walk of its own: set `walk` to the bytes that were read as the message, and
 * call until the answer is no GTV_OK. GTV_OK, and `element` is the next of them, a string or
 * `bytes` as they are, a message as the bytes that its own `_read` takes, and `walk` is what is
 * behind it; GTV_END, where none is left; or the status of an error, which bytes that were read as
 * the message never have. Without GTV_OK `walk` stays, and `element` is of no bytes. The bytes of
 * a message are such a message, within some limits of no more than 100 levels. Of a list of
 * numbers, packed or not, `walk` is a `gtv_numbers`: set its `bytes` to those that were read, and
 * all else of it to zero; `number` is the next, and stays without GTV_OK.
 *
 * Each `_unknown_record` gives so the records whose numbers the message lacks, one after another,
 * as they came: `element` is a whole record, its tag too, and a group up to its end, and `walk` is
 * what is behind it. A status of an error says that the bytes up to the next of them are no
 * records, or that these nest more than 100 groups.
 *
 * A map is a list of its entries, as they came: `_count` counts entries, also those of one key,
 * and an entry is read by the `_read` of its own type.
 *
 * What is written of lists and maps is handed in beside the struct, in arrays, and of nothing
 * else: not of the struct, whose counts are not looked at, and not of bytes that are handed to a
 * call that keeps unknown fields. Entries are written in the order of the array, and keys are not
 * compared. `lists` is not NULL.
 *
 * Each `_size_keeping` and `_write_keeping` has unknown fields behind it: of the records that
 * `bytes` are, usually those that the struct was read from, those whose numbers the message lacks,
 * in order, each in its shortest form and groups whole. Where they are no records, or these nest
 * more than 100 groups, they answer the status of the error, `*len` is 0, and the room stays. The
 * unknown fields of messages inside are not kept. */
";

/// What elements are charged by the default limits.
pub const CHARGES: &str =
    " * Of these a string or `bytes` counts 24, a number in a list nothing, and a message or an\n \
    * entry 24 and for each of its fields 24 where it is a string, `bytes` or a list, 8 where it\n \
    * is a message, and 16 else.\n";

/// The same where the schema's parameter says it.
pub const CHARGES_GIVEN: &str =
    " * Of these each counts $element$, but a number in a list nothing.\n";

/// What is told of the entries of a map, in lines.
pub const ENTRY: &str =
    " An entry of a map, as it came: of several of one key the last stands for all. A key or a \
    value\n that is not there is zero, of no bytes, or the message of no records; such are not \
    written.\n";

/// What is told of a field that is held as bytes.
const ENCODED: &str =
    " Encodings of messages, not looked at: the calls of their type read and write them.";

/// What is told of a field beside its comment, if something is.
pub fn told_of(header: &Words, field: &Words) -> &'static str {
    let (owner, name) = (field.get("full"), field.get("proto"));
    let is_encoded = header
        .get("encoded")
        .split('\n')
        .any(|it| match it.rsplit_once('.') {
            Some((of, called)) => of == owner && called == name,
            None => false,
        });
    if is_encoded { ENCODED } else { "" }
}
