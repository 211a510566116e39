//! The files of a crate.
use crate::google_files::schema_of;
use crate::well_known::import_well_known;
use std::alloc::Global;
use wire_bindings::struct_inside::{encode_inside, takes_inside};
use wire_codec::{DecodeOptions, Message};
use wire_definitions::{
    Tree, closed_answers, definitions_of, has_groups, has_laws, has_view, oneof_definitions,
    oneof_stays, stays_of, tree_of,
};
use wire_descriptor::{CodeGeneratorRequest, CodeGeneratorResponse, CodeGeneratorResponseFile};
use wire_schema::{
    EnumType, FIRST_EDITION, Field, GenerateError, LAST_EDITION, MessageType, Oneof, Schema, Words,
    fields_of, order_key, set_crate,
};
use wire_types::answers::answers_of;
use wire_types::code::code_of;
use wire_types::enums::enum_files;
use wire_types::extensions::extensions_of;
use wire_types::layout::laid_out;
use wire_types::oneof::oneof_code;
use wire_types::oneof_proofs::merge_answers;
use wire_types::services::services_of;
use wire_types::written::{FieldAnswers, written_answers};

// The most fields of a message, of which it was seen that they are proved.
const MOST_FIELDS: usize = 128;

// Of such a message the fields stand in no groups.
const MANY_OF_FLAT: &str = "\
    $full$: more than 80 fields of a message that has a view, or with unknown=drop or mismatch=keep";

// Features of a plug-in, as protoc asks for them.
const OPTIONAL_OF_PROTO3: u64 = 1;

const EDITIONS: u64 = 2;

/// The answer to a request of protoc, as bytes, and what is told beside it, in lines: which
/// messages have no struct for C.
#[derive(Drop)]
pub(crate) struct PluginAnswer {
    pub bytes: Vec<u8>,
    pub notes: String,
}

/// The answer of the plug-in to a request of protoc, which is bytes too. What a schema has and a
/// crate can't have is an error that is answered.
pub(crate) fn answer(alloc: Global, request: &[u8]) -> Result<PluginAnswer, GenerateError> {
    let options = DecodeOptions::new();
    let mut request = match options.decode_from_slice(alloc, request) {
        Ok(request) => request,
        Err(error) => return Err(GenerateError::Request(error)),
    };
    let mut response = CodeGeneratorResponse::default_value(alloc);
    response.supported_features = OPTIONAL_OF_PROTO3 | EDITIONS;
    response.minimum_edition = FIRST_EDITION;
    response.maximum_edition = LAST_EDITION;
    let mut notes = String::new(alloc);
    match package_of(alloc, &mut request) {
        Ok(package) => {
            response.file = package.files;
            notes = package.notes;
        }
        Err(GenerateError::Refused(why)) => response.error = why,
        Err(error) => return Err(error),
    }
    match response.try_encode_to_vec(alloc) {
        Ok(bytes) => Ok(PluginAnswer { bytes, notes }),
        Err(error) => Err(GenerateError::Answer(error)),
    }
}

fn package_of(alloc: Global, request: &mut CodeGeneratorRequest) -> Result<Package, GenerateError> {
    let mut base = Words::new(alloc);
    set_crate(&mut base, request)?;
    import_well_known(&mut base, request);
    let is_asked = takes_inside(&mut base)?;
    let mut schema = schema_of(&mut base, request)?;
    if is_asked {
        encode_inside(&mut base, &schema);
        schema = Schema::of(&base, request)?;
    }
    let most = base.get("split").parse::<usize>().unwrap_or(0);
    let mut package = Package {
        roots: Words::like(&base),
        base,
        files: Vec::new(alloc),
        notes: String::new(alloc),
    };
    if most > 0 {
        package.add_split(&mut schema, most)?;
    } else {
        package.add_all(&schema)?;
    }
    Ok(package)
}

// Refuses more fields than it was seen that they are proved.
fn stop_on_many(page: &mut Words, count: usize) -> Result<(), GenerateError> {
    let is_plain = page.get("unknown") == "keep" && page.get("mismatch") == "refuse";
    if has_groups(count) && (has_view(page) || !is_plain) {
        return Err(page.refused(MANY_OF_FLAT));
    }
    if count > MOST_FIELDS {
        return Err(page.refused("$full$: more than 128 fields"));
    }
    Ok(())
}

// The files so far. The words of the roots are lines of the files that name the others.
#[derive(Drop)]
pub(crate) struct Package {
    pub base: Words,
    pub roots: Words,
    pub notes: String,
    files: Vec<CodeGeneratorResponseFile>,
}

impl Package {
    fn add_all(&mut self, schema: &Schema) -> Result<(), GenerateError> {
        self.add_types(schema)?;
        self.add_extensions(schema)?;
        self.add_services(schema)?;
        self.add_structs(schema)?;
        self.add_json(schema)?;
        self.add_roots()
    }

    /// The types that are to be generated.
    pub(crate) fn add_types(&mut self, schema: &Schema) -> Result<(), GenerateError> {
        self.add_messages(schema)?;
        for of_enum in &schema.enums {
            if of_enum.origin.is_own {
                self.add_enum(schema, of_enum)?;
            }
        }
        Ok(())
    }

    fn add_messages(&mut self, schema: &Schema) -> Result<(), GenerateError> {
        for (place, message) in schema.messages.iter().enumerate() {
            if message.origin.is_own {
                self.add_message(schema, message)?;
                if message.family == Some(place) {
                    self.add_family(schema, place)?;
                }
            }
        }
        Ok(())
    }

    /// The words of the crate, and those of a type.
    pub(crate) fn page(&self, of: &Words) -> Words {
        let mut page = Words::like(&self.base);
        page.copy(
            of,
            &[
                "full",
                "name",
                "module",
                "place",
                "schema",
                "charged",
                "requiring",
                "view_name",
                "view_module",
                "view_written",
            ],
        );
        page
    }

    // A file, whose path is a template.
    pub(crate) fn add(
        &mut self,
        page: &mut Words,
        path: &str,
        content: String,
    ) -> Result<(), GenerateError> {
        let mut file = CodeGeneratorResponseFile::default_value(page.alloc());
        page.set("file", self.base.get("crate_folder"));
        page.append("file", path);
        file.name = page.finish("file")?;
        file.content = if file.name.ends_with(".rt") {
            laid_out(page.alloc(), &content)?
        } else {
            content
        };
        self.files.push(file)?;
        Ok(())
    }

    fn add_message(&mut self, schema: &Schema, message: &MessageType) -> Result<(), GenerateError> {
        let mut page = self.page(&message.words);
        let mut fields = fields_of(&self.base, schema, message)?;
        stop_on_many(&mut page, fields.len())?;
        if message.is_recursive || message.family.is_some() {
            return self.add_recursive(schema, message, fields);
        }
        if !page.get("requiring").is_empty() {
            self.need_required();
        }
        let tree = tree_of(&page, &mut fields, true)?;
        let code = code_of(&page, schema, message, &fields, &tree)?;
        let definitions = definitions_of(&page, &fields, &tree, message)?;
        self.add_type(&mut page, code, definitions)?;
        self.add_law(&mut page)?;
        if has_laws(&self.base) {
            let proof = stays_of(&page, &fields, &tree)?;
            self.add_stays(&mut page, proof)?;
        }
        self.add_oneofs(&fields, message)?;
        self.add_written(&mut page, &fields, &tree)?;
        self.add_view(&page, schema, &fields, &tree)?;
        if fields.is_empty() {
            return Ok(());
        }
        if tree.has_groups {
            return self.add_groups(&mut page, &fields, &tree);
        }
        let answers = answers_of(&page, &fields, &tree, false)?;
        let path = "proofs/$module$/$name$MessageFields/merge_field/Answers.antt";
        self.add(&mut page, path, answers)?;
        self.add_default_value(&mut page, &fields)
    }

    // The answers of what measures and writes the fields of a message, and those of its parts.
    fn add_written(
        &mut self,
        page: &mut Words,
        fields: &[Field],
        tree: &Tree,
    ) -> Result<(), GenerateError> {
        let answers = written_answers(page, fields, tree, None)?;
        self.add_measured(page, answers)?;
        for part in &tree.parts {
            let answers = written_answers(page, fields, tree, Some(part))?;
            self.add_measured(page, answers)?;
        }
        Ok(())
    }

    fn add_measured(
        &mut self,
        page: &mut Words,
        answers: Option<FieldAnswers>,
    ) -> Result<(), GenerateError> {
        let Some(FieldAnswers { measured, written }) = answers else {
            return Ok(());
        };
        let path = "proofs/$module$/$type$/$measuring$/Answers.antt";
        self.add(page, path, measured)?;
        self.add(
            page,
            "proofs/$module$/$type$/$writing$/Answers.antt",
            written,
        )
    }

    /// The oneofs among the fields of a message.
    pub(crate) fn add_oneofs(
        &mut self,
        fields: &[Field],
        message: &MessageType,
    ) -> Result<(), GenerateError> {
        for field in fields {
            if let Some(oneof) = &field.oneof {
                self.add_oneof(oneof, message)?;
            }
        }
        Ok(())
    }

    /// A oneof of a message.
    pub(crate) fn add_oneof(
        &mut self,
        oneof: &Oneof,
        message: &MessageType,
    ) -> Result<(), GenerateError> {
        let mut page = self.page(&oneof.words);
        page.copy(&oneof.words, &["kind_name", "holder", "holder_name"]);
        page.copy(&oneof.words, &["view_kind_name", "view_written"]);
        let code = oneof_code(&page, oneof, message.is_twin)?;
        let definitions = oneof_definitions(&page, oneof)?;
        self.add_type(&mut page, code, definitions)?;
        if has_laws(&self.base) {
            let proof = oneof_stays(&page, oneof)?;
            self.add_stays(&mut page, proof)?;
        }
        let answers = merge_answers(&page, oneof)?;
        let path = "proofs/$module$/$kind_name$Kind/merge/Answers.antt";
        self.add(&mut page, path, answers)?;
        self.add_oneof_view(&page, oneof)?;
        for variant in &oneof.variants {
            if !variant.get("closed").is_empty() {
                self.add_closed(&mut page, variant)?;
            }
        }
        Ok(())
    }

    // The answers of a variant of a closed enum.
    fn add_closed(&mut self, page: &mut Words, variant: &Words) -> Result<(), GenerateError> {
        let answers = closed_answers(page, variant)?;
        page.copy(variant, &["word"]);
        let path = "proofs/$module$/set_or_keep_$word$/Answers.antt";
        self.add(page, path, answers)
    }

    fn add_enum(&mut self, schema: &Schema, of_enum: &EnumType) -> Result<(), GenerateError> {
        let mut page = self.page(&of_enum.words);
        let (code, definitions) = enum_files(&page, schema, of_enum)?;
        self.add_type(&mut page, code, definitions)
    }

    /// The crate stands on that of required fields.
    pub(crate) fn need_required(&mut self) {
        if self.roots.get("requiring").is_empty() {
            self.roots.set("requiring", "requiring");
            self.roots.append("needs", " wire_required");
        }
    }

    /// A module of code, and that of its definitions.
    pub(crate) fn add_type(
        &mut self,
        page: &mut Words,
        code: String,
        definitions: String,
    ) -> Result<(), GenerateError> {
        self.add_code(page, code)?;
        self.roots.append("definitions", "pub mod $name$\n");
        self.add(page, "specs/$name$.antt", definitions)
    }

    /// The module of a type.
    pub(crate) fn add_code(&mut self, page: &mut Words, code: String) -> Result<(), GenerateError> {
        self.roots.copy(page, &["name", "module"]);
        let key = order_key(page.alloc(), page.get("module"))?;
        self.roots.set("key", &key);
        self.roots.append_all(&[
            ("modules", "mod $module$\n"),
            ("exports", "$key$\tpub use $module$::$name$;\n"),
        ]);
        self.add(page, "src/$module$.rt", code)
    }

    /// The module of the extensions, where the files declare any.
    pub(crate) fn add_extensions(&mut self, schema: &Schema) -> Result<(), GenerateError> {
        let code = extensions_of(&self.base, schema)?;
        if code.is_empty() {
            return Ok(());
        }
        self.roots.append_all(&[
            ("needs", " wire_extensions"),
            ("modules", "mod extensions\n"),
        ]);
        let mut page = Words::like(&self.base);
        self.add(&mut page, "src/extensions.rt", code)
    }

    /// The module of the services, where the files have any.
    pub(crate) fn add_services(&mut self, schema: &Schema) -> Result<(), GenerateError> {
        let code = services_of(&self.base, schema)?;
        if code.is_empty() {
            return Ok(());
        }
        let mut page = Words::like(&self.base);
        self.roots.append("modules", "mod services\n");
        self.add(&mut page, "src/services.rt", code)
    }
}
