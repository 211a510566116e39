//! Structs for C: those of the messages that can have one, and the static library of their calls.
use crate::package::Package;
use wire_bindings::c_header::CHeader;
use wire_bindings::struct_answers::struct_answers_of;
use wire_bindings::struct_calls::{
    AS_SHOWN, AS_SHOWN_USES, FAULT_ANSWERS, MIXED, MIXED_SAME, MIXED_USES, READ_ANSWERS, SAME,
    SAME_USES, SHOWS, SHOWS_USES, WITH_LISTS,
};
use wire_bindings::struct_code::struct_code_of;
use wire_bindings::struct_definitions::{
    LEVEL_USES, READS_BACK_ANSWERS, READS_BACK_OF_LISTS, STRUCT_LAW_USES, STRUCT_LAWS,
    keeps_answers_of, struct_definitions_of,
};
use wire_bindings::struct_fields::{is_c_word, set_in_struct};
use wire_bindings::struct_left_out::{TYPES, is_called_as_a_call, is_struct_there, reason};
use wire_bindings::struct_lists::{lists_code_of, lists_definitions_of};
use wire_bindings::struct_oneof_answers::{oneof_in_c_answers_of, oneof_shows_of};
use wire_bindings::struct_oneof_code::oneof_in_c_code_of;
use wire_bindings::struct_oneof_definitions::oneof_in_c_definitions_of;
use wire_bindings::struct_ranges::has_answers_of;
use wire_bindings::struct_trees::{StructTrees, trees_of};
use wire_definitions::{definition_imports, set_heading};
use wire_schema::{Field, GenerateError, MessageType, Schema, Template, Words, fields_of};

// What the README says of structs.
const STRUCTS: &str =
    " `make` in `$crate$_c` makes what\nprograms of C, C++ and Rust need to read and write structs of these.";

// What the files that name the others have of a struct.
const OF_ROOTS: [Template; 6] = [
    ("modules", "mod $module$_in_c\n"),
    ("struct_modules", "mod $module$;\n"),
    ("definitions", "pub mod $name$InC\n"),
    ("proofs", "pub mod $name$InCShows\n"),
    ("laws", STRUCT_LAWS),
    ("ghosts", STRUCT_LAW_USES),
];

// The same of a oneof among its fields.
const OF_ONEOF_ROOTS: [Template; 3] = [
    ("modules", "mod $module$_in_c\n"),
    ("definitions", "pub mod $name$InC\n"),
    ("proofs", "pub mod $name$InCShows\n"),
];

impl Package {
    /// The structs of the messages, and the crate of their library, where they are asked for.
    pub(crate) fn add_structs(&mut self, schema: &Schema) -> Result<(), GenerateError> {
        if self.base.get("c").is_empty() {
            return Ok(());
        }
        self.base.set("beside", "c");
        let c = self.base.get("c");
        if is_c_word(c) || c.starts_with("gtv") || c.starts_with("gettavil") {
            let why = "c=$c$: a word of C, or a name of the headers";
            return Err(self.base.refused(why));
        }
        let mut header = CHeader::new(&self.base);
        for of_enum in &schema.enums {
            if of_enum.origin.is_own {
                header.put_enum(schema, of_enum)?;
            }
        }
        self.add_all_structs(schema, &mut header)?;
        self.notes.push_str(header.left_out())?;
        self.roots.set("base_needed", "wire_base ");
        self.roots
            .append_all(&[("needs", " wire_structs"), ("viewed", STRUCTS)]);
        self.add_library(header)
    }

    // The structs of all messages that can have one.
    fn add_all_structs(
        &mut self,
        schema: &Schema,
        header: &mut CHeader,
    ) -> Result<(), GenerateError> {
        let mut left = Vec::new(self.base.alloc());
        for message in &schema.messages {
            if !message.origin.is_own {
                continue;
            }
            if is_called_as_a_call(message, schema) {
                header.leave_out(message, ("", "it is called as a call of another"))?;
            } else if TYPES.split(' ').any(|it| it == message.words.get("name")) {
                header.leave_out(message, ("", "it is called as a type of the library"))?;
            } else if is_struct_there(message, schema) {
                header.leave_out(message, ("", "another is called as its struct"))?;
            } else {
                left.push(message)?;
            }
        }
        // Each turn adds those of which all messages inside are there.
        for _ in 0..schema.messages.len() {
            let count = left.len();
            let mut still_left = Vec::new(self.base.alloc());
            for message in left {
                if !self.add_struct(schema, message, header)? {
                    still_left.push(message)?;
                }
            }
            left = still_left;
            if left.len() == count {
                break;
            }
        }
        for message in left {
            let fields = fields_of(&self.base, schema, message)?;
            match reason(&fields, header.inside()) {
                // (what is told of the message with the map says enough)
                Some(why) if !message.is_entry() => header.leave_out(message, why)?,
                _ => {}
            }
        }
        Ok(())
    }

    // Whether a message can have a struct, which is added.
    fn add_struct(
        &mut self,
        schema: &Schema,
        message: &MessageType,
        header: &mut CHeader,
    ) -> Result<bool, GenerateError> {
        let mut page = self.page(&message.words);
        let mut fields = fields_of(&self.base, schema, message)?;
        if reason(&fields, header.inside()).is_some() {
            return Ok(false);
        }
        for field in &mut fields {
            set_in_struct(field, message.words.get("place"))?;
        }
        self.add_oneofs_in_c(schema, &fields)?;
        let has_lists = fields.iter().any(|it| it.words.get("is_mixed") == "list");
        if has_lists {
            page.fill_all(&WITH_LISTS);
        }
        let trees = trees_of(&mut page, &mut fields)?;
        let code = struct_code_of(&page, schema, message, &fields, &trees)?;
        self.roots.copy(&page, &["name", "module", "with_lists"]);
        self.roots.append_all(&OF_ROOTS);
        self.add(&mut page, "src/$module$_in_c.rt", code)?;
        let definitions = struct_definitions_of(&page, &fields, &trees)?;
        self.add(&mut page, "specs/$name$InC.antt", definitions)?;
        self.add_shows(&mut page, &fields, &trees)?;
        self.add_struct_answers(&mut page, &fields, &trees)?;
        if has_lists {
            self.add_lists(&mut page, schema, &fields, &trees)?;
        }
        self.add_exports(&page, &fields)?;
        let module = header.put_message(schema, message, &fields)?;
        self.add_rust(&mut page, module)?;
        Ok(true)
    }

    // The structs of the oneofs among these fields.
    fn add_oneofs_in_c(&mut self, schema: &Schema, fields: &[Field]) -> Result<(), GenerateError> {
        for oneof in fields.iter().filter_map(|it| it.oneof.as_ref()) {
            let mut page = self.page(&oneof.words);
            self.roots.copy(&page, &["name", "module"]);
            self.roots.append_all(&OF_ONEOF_ROOTS);
            let code = oneof_in_c_code_of(&page, schema, oneof)?;
            self.add(&mut page, "src/$module$_in_c.rt", code)?;
            let definitions = oneof_in_c_definitions_of(&page, oneof)?;
            self.add(&mut page, "specs/$name$InC.antt", definitions)?;
            let shows = oneof_shows_of(&page, oneof)?;
            self.add(&mut page, "proofs/$name$InCShows.antt", shows)?;
            let answers = oneof_in_c_answers_of(&page, oneof)?;
            let path = "proofs/$module$_in_c/$name$InC/merge/Answers.antt";
            self.add(&mut page, path, answers)?;
        }
        Ok(())
    }

    // The page that a struct is read just where its message is.
    fn add_shows(
        &mut self,
        page: &mut Words,
        fields: &[Field],
        trees: &StructTrees,
    ) -> Result<(), GenerateError> {
        page.fill("uses", SHOWS_USES);
        match &trees.mixed {
            None => {
                page.append("uses", SAME_USES);
                page.fill_all(&[("shows", SAME), ("same", "refl")]);
            }
            Some(mixed) => {
                for field in fields {
                    page.copy(&field.words, &["shows_uses"]);
                    page.append("uses", "$shows_uses$");
                }
                page.append("uses", MIXED_USES);
                page.copy(&mixed.written.words, &["stays"]);
                page.fill("same", MIXED_SAME);
                page.copy(&mixed.seen.words, &["stays"]);
                page.fill("shows", MIXED);
            }
        }
        if page.get("of_lists").is_empty() {
            page.append("uses", AS_SHOWN_USES);
            page.fill("as_shown", AS_SHOWN);
        }
        set_heading(
            page,
            "--",
            "Why `$name$InC` is read just where `$name$` is.",
        );
        definition_imports(page);
        page.fill("text", SHOWS);
        let text = page.finish("text")?;
        self.add(page, "proofs/$name$InCShows.antt", text)
    }

    // The module of the lists of a message, and why they are those of its table.
    fn add_lists(
        &mut self,
        page: &mut Words,
        schema: &Schema,
        fields: &[Field],
        trees: &StructTrees,
    ) -> Result<(), GenerateError> {
        let code = lists_code_of(page, schema, fields)?;
        self.add(page, "src/$module$_in_c_lists.rt", code)?;
        page.fill("level_uses", LEVEL_USES);
        for field in fields {
            page.copy(&field.words, &["field", "law_uses", "kind_use"]);
            page.append("level_uses", "$law_uses$$kind_use$");
        }
        let uses = page.take("level_uses");
        let text = lists_definitions_of(page, fields, trees, &uses)?;
        self.add(page, "specs/$name$InCLists.antt", text)?;
        self.roots.append_all(&[
            ("modules", "mod $module$_in_c_lists\n"),
            ("definitions", "pub mod $name$InCLists\n"),
        ]);
        Ok(())
    }

    fn add_struct_answers(
        &mut self,
        page: &mut Words,
        fields: &[Field],
        trees: &StructTrees,
    ) -> Result<(), GenerateError> {
        let answers = struct_answers_of(page, fields, trees)?;
        let path = "proofs/$module$_in_c/$name$InCMessageStruct/merge_field/Answers.antt";
        self.add(page, path, answers)?;
        if let Some(answers) = has_answers_of(page, fields, &trees.shown.words)? {
            let path = "proofs/$module$_in_c/$name$InCFieldNumbers/has/Answers.antt";
            self.add(page, path, answers)?;
        }
        let answers = keeps_answers_of(page, fields, &trees.shown.words)?;
        let path = "proofs/laws/$module$_in_c_keeps_unknown/Answers.antt";
        self.add(page, path, answers)?;
        page.fill("answers", READ_ANSWERS);
        let answers = page.finish("answers")?;
        let path = "proofs/$module$_in_c/read_$module$/Answers.antt";
        self.add(page, path, answers)?;
        page.fill("answers", FAULT_ANSWERS);
        let answers = page.finish("answers")?;
        let path = "proofs/$module$_in_c/$module$_fault/Answers.antt";
        self.add(page, path, answers)?;
        let has_lists = !page.get("of_lists").is_empty();
        page.fill(
            "answers",
            if has_lists {
                READS_BACK_OF_LISTS
            } else {
                READS_BACK_ANSWERS
            },
        );
        let answers = page.finish("answers")?;
        let path = "proofs/laws/$module$_in_c_reads_back/Answers.antt";
        self.add(page, path, answers)
    }
}
