//! What a decoder may still take, and the limits that a caller names.
use crate::row::{Row, Step};
use crate::said::Said;
use wire_codec::{
    BOOL_ENCODED_LEN, DEFAULT_ELEMENT_MEMORY_LIMIT, DEFAULT_MIN_SEGMENT,
    DEFAULT_UNKNOWN_FIELD_LIMIT, DecodeContext, DecodeError, DecodeOptions,
    FIRST_RESERVED_FIELD_NUMBER, FIXED32_ENCODED_LEN, FIXED64_ENCODED_LEN,
    LAST_RESERVED_FIELD_NUMBER, MAX_FIELD_NUMBER, MAX_MESSAGE_BYTES, MessageName, RECURSION_LIMIT,
};
use wire_samples::{Node, Person};

pub fn tell(row: &Row<'_>, said: &mut Said) -> bool {
    match row.call {
        "DecodeContext" => context(row, said),
        "DecodeContext::fmt" => said.show(&row.context()),
        "DecodeOptions" => options(row.options().unwrap_or(DecodeOptions::new()), said),
        "DecodeOptions::default" => options(DecodeOptions::default(), said),
        "constants" => constants(said),
        "names<Person>" => names::<Person>(said),
        "names<Node>" => names::<Node>(said),
        _ => return false,
    }
    true
}

// The words of a row in turn, each with its answer, and what is left then.
fn context(row: &Row<'_>, said: &mut Said) {
    let mut context = row.context();
    for word in row.words.split(' ') {
        match step(&mut context, Step::parse(word)) {
            Some(Ok(())) => said.word("Ok "),
            Some(Err(error)) => {
                said.refuse(error);
                said.word(" ");
            }
            None => {}
        }
    }
    said.show(&context.depth());
    said.also(" ", &context.remaining_unknown_fields());
    said.also(" ", &context.remaining_element_memory());
    if let Some(left) = context.remaining_unknown_bytes() {
        said.also(", ", &left);
        said.word(" for payloads");
    }
}

fn step(context: &mut DecodeContext, step: Step<'_>) -> Option<Result<(), DecodeError>> {
    match step.kind {
        "take" => Some(context.register_element_memory(step.number())),
        "payload" => Some(context.register_unknown_bytes(step.number())),
        "descend" => Some(context.descend()),
        "field" => Some(context.register_unknown_field()),
        "ascend" if context.depth() < u32::MAX => {
            context.ascend();
            None
        }
        _ => None,
    }
}

fn options(options: DecodeOptions, said: &mut Said) {
    let Some(copy) = said.made(options.clone()) else {
        return;
    };
    said.show(&copy.recursion_limit());
    said.also(" ", &options.max_message_size());
    said.also(" ", &copy.unknown_field_limit());
    said.also(" ", &options.element_memory_limit());
    said.also(" ", &copy.unknown_byte_limit());
}

fn constants(said: &mut Said) {
    let reserved = [FIRST_RESERVED_FIELD_NUMBER, LAST_RESERVED_FIELD_NUMBER];
    said.show(&reserved);
    said.also(" ", &MAX_FIELD_NUMBER);
    said.also(" ", &RECURSION_LIMIT);
    said.also(" ", &DEFAULT_UNKNOWN_FIELD_LIMIT);
    said.also(" ", &DEFAULT_ELEMENT_MEMORY_LIMIT);
    said.also(" ", &MAX_MESSAGE_BYTES);
    said.also(" ", &DEFAULT_MIN_SEGMENT);
    said.also(
        " ",
        &[BOOL_ENCODED_LEN, FIXED32_ENCODED_LEN, FIXED64_ENCODED_LEN],
    );
}

fn names<M: MessageName>(said: &mut Said) {
    said.word(M::PACKAGE);
    for name in [M::NAME, M::FULL_NAME, M::TYPE_URL] {
        said.word(" ");
        said.word(name);
    }
}
