//! The well-known types, which no parameter has to name.
use wire_descriptor::CodeGeneratorRequest;
use wire_schema::Words;

const CRATE: &str = "wire_well_known";

const PACKAGE: &str = "google.protobuf";

// The files of the crate.
const FILES: &str = "any duration empty field_mask struct timestamp wrappers";

/// Names the crate of the well-known types for those of its files that the schemas import, or what
/// these import, where no parameter names another.
pub(crate) fn import_well_known(base: &mut Words, request: &CodeGeneratorRequest) {
    for file in &request.proto_file {
        for path in &file.dependency {
            if !request.file_to_generate.contains(path) && is_of_crate(path) {
                import_file(base, path);
            }
        }
    }
}

fn is_of_crate(path: &str) -> bool {
    let name = path
        .strip_prefix("google/protobuf/")
        .and_then(|it| it.strip_suffix(".proto"));
    match name {
        Some(name) => FILES.split(' ').any(|it| it == name),
        None => false,
    }
}

fn import_file(base: &mut Words, path: &str) {
    if is_named(base.get("imported"), path) {
        return;
    }
    base.set("well_known_file", path);
    base.append("imported", "$well_known_file$ wire_well_known\n");
    if !base.get("needs").split(' ').any(|it| it == CRATE) {
        base.append("needs", " wire_well_known");
    }
}

// Whether these lines, of a package or a file and a crate each, name one for this file.
fn is_named(imported: &str, path: &str) -> bool {
    imported.split('\n').any(|line| match line.split_once(' ') {
        Some((of, _)) => of == path || of == PACKAGE,
        None => false,
    })
}
