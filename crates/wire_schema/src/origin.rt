//! What a type has of its file.
use crate::error::GenerateError;
use crate::message_type::{MessageType, Origin};
use crate::names::{module_name, type_name};
use crate::words::Words;
use wire_descriptor::FileDescriptorProto;

/// The crate that has the types of a file, of lines of a package or a file and a crate each.
pub(crate) fn home_of<'a>(file: &FileDescriptorProto, imported: &'a str) -> &'a str {
    for line in imported.split('\n') {
        if let Some((of, home)) = line.split_once(' ') {
            if of == file.name.as_str() || of == file.package.as_str() {
                return home;
            }
        }
    }
    ""
}

/// The words of a type of this name within a file or another type, where it is the one at this
/// index.
pub(crate) fn inner(
    outer: &Words,
    name: &str,
    place: &str,
    index: usize,
) -> Result<Words, GenerateError> {
    let alloc = outer.alloc();
    let mut words = Words::like(outer);
    words.set("name", name);
    words.index("index", index);
    words.fill("place", place);
    words.fill("full", "$full$.$name$");
    words.append("outer", "$name$.");
    let name = type_name(alloc, words.get("outer"))?;
    let module = module_name(alloc, &name)?;
    words.set("name", &name);
    words.set("module", &module);
    words.ended()?;
    Ok(words)
}

/// What a type has of its file, but for what it says itself.
pub(crate) fn own_origin(message: &MessageType) -> Result<Origin, GenerateError> {
    let Some(options) = &message.descriptor.options else {
        return Ok(message.origin);
    };
    let mut words = Words::like(&message.words);
    let features = message.origin.features;
    Ok(Origin {
        features: features.with(options.features.as_deref(), &mut words)?,
        is_own: message.origin.is_own,
    })
}
