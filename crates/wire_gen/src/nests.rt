//! The files of message types that hold themselves or one another.
use crate::package::Package;
use wire_definitions::{
    MEMBER_MERGE, MEMBER_MERGE_OF_MANY, Tree, closed_choice_answers, family_definitions,
    family_stays, has_laws, has_view, is_row, leaf_tree, member_definitions, member_stays,
    nest_stays, oneof_definitions, oneof_stays, put_all_variants, put_leaf_stays,
    recursive_definitions, set_leaf, table_page,
};
use wire_schema::{Field, GenerateError, MessageType, Oneof, Schema, Template, Words, fields_of};
use wire_types::answers::{answers_of, leaf_group_answers_of};
use wire_types::choice_code::{CHOICE, choice_code};
use wire_types::family::{set_alone, set_family};
use wire_types::family_code::family_code;
use wire_types::leaf_empty_answers::{CLEAR, EMPTY, leaf_empty_answers};
use wire_types::recursive::recursive_code;
use wire_types::row_answers::{MERGE_LEAF, TAKE, held_answers, part_answers, row_answers};
use wire_types::view_choice::choice_view_code;

// Where the proofs of a message type that holds itself are, and of one of a family.
const FOLDERS: [Template; 2] = [
    ("folder", "proofs/$module$/$name$RecursiveMember"),
    ("row_folder", "proofs/$module$/$name$RecursiveAlone"),
];

const MEMBER_FOLDERS: [Template; 2] = [
    ("folder", "proofs/$module$/$name$RecursiveMemberFamilyHeld"),
    ("row_folder", "proofs/$module$/$name$"),
];

impl Package {
    /// A message type that holds itself, or is of a family: some of these fields are rows.
    pub(crate) fn add_recursive(
        &mut self,
        schema: &Schema,
        message: &MessageType,
        fields: Vec<Field>,
    ) -> Result<(), GenerateError> {
        let mut page = self.page(&message.words);
        page.copy(&message.words, &CHOICE);
        let is_derived = has_derived_clone(schema, message);
        page.set("by_hand", if is_derived { "" } else { "by_hand" });
        if !page.get("requiring").is_empty() {
            self.need_required();
        }
        set_leaf(&mut page, &fields);
        match message.family {
            Some(first) => drop(set_family(&mut page, schema, first)?),
            None => set_alone(&mut page),
        }
        let is_member = message.family.is_some();
        page.fill_all(if is_member { &MEMBER_FOLDERS } else { &FOLDERS });
        let (fields, tree) = leaf_tree(&mut page, fields)?;
        let code = recursive_code(&page, schema, message, &fields, &tree)?;
        let definitions = if is_member {
            member_definitions(&page)?
        } else {
            recursive_definitions(&page, &fields, &tree)?
        };
        self.add_type(&mut page, code, definitions)?;
        self.add_law(&mut page)?;
        if has_laws(&self.base) {
            let proof = if is_member {
                member_stays(&page)?
            } else {
                nest_stays(&page, &fields, &tree)?
            };
            self.add_stays(&mut page, proof)?;
        }
        self.add_choices(&page, &fields, message)?;
        self.add_rows(&mut page, &fields, tree.has_groups)?;
        if tree.has_groups {
            self.add_empty(&mut page, &fields)?;
            self.add_parts(&mut page, &fields)?;
        }
        self.add_recursive_view(&page, schema, &fields)?;
        self.add_leaf(&mut page, fields, &tree)?;
        if is_member {
            self.add_member(&mut page, tree.has_groups)?;
        }
        Ok(())
    }

    // The oneofs of such a type, of which some variants may be rows.
    fn add_choices(
        &mut self,
        base: &Words,
        fields: &[Field],
        message: &MessageType,
    ) -> Result<(), GenerateError> {
        for field in fields {
            let Some(oneof) = &field.oneof else {
                continue;
            };
            if is_row(field) || !field.words.get("in_choice").is_empty() {
                self.add_choice(base, oneof, fields)?;
            } else {
                self.add_oneof(oneof, message)?;
            }
        }
        Ok(())
    }

    // A oneof of which some variants are rows.
    fn add_choice(
        &mut self,
        base: &Words,
        oneof: &Oneof,
        fields: &[Field],
    ) -> Result<(), GenerateError> {
        let code = choice_code(base, oneof, fields)?;
        let mut page = self.page(&oneof.words);
        page.copy(&oneof.words, &["holder", "holder_name"]);
        if has_view(&page) {
            let view = choice_view_code(base, oneof, fields)?;
            self.add_module(&page, view)?;
        }
        page.fill_all(&[("view_name", ""), ("view_module", "")]);
        if oneof.variants.is_empty() {
            return self.add_code(&mut page, code);
        }
        page.set("in_choice", "in_choice");
        for variant in &oneof.variants {
            if !variant.get("closed").is_empty() {
                self.add_closed_choice(base, &page, variant)?;
            }
        }
        let definitions = oneof_definitions(&page, oneof)?;
        self.add_type(&mut page, code, definitions)?;
        if has_laws(&self.base) {
            let proof = oneof_stays(&page, oneof)?;
            self.add_stays(&mut page, proof)?;
        }
        Ok(())
    }

    // The answers of the function of a variant of a closed enum, which stands beside the message,
    // and of the one beside its view.
    fn add_closed_choice(
        &mut self,
        base: &Words,
        oneof: &Words,
        variant: &Words,
    ) -> Result<(), GenerateError> {
        let mut page = Words::like(oneof);
        page.set("holder_view", base.get("view_module"));
        let [answers, view_answers] = closed_choice_answers(&page, variant)?;
        page.copy(variant, &["word"]);
        let path = "proofs/$holder$/set_or_keep_$word$/Answers.antt";
        self.add(&mut page, path, answers)?;
        if !has_view(base) {
            return Ok(());
        }
        let path = "proofs/$holder_view$/set_or_keep_$word$/Answers.antt";
        self.add(&mut page, path, view_answers)
    }

    // The answers of the leaf of such a type.
    fn add_leaf(
        &mut self,
        page: &mut Words,
        fields: Vec<Field>,
        tree: &Tree,
    ) -> Result<(), GenerateError> {
        let mut leaf = Vec::new(page.alloc());
        for field in fields {
            if !is_row(&field) {
                leaf.push(field)?;
            }
        }
        if tree.has_groups {
            return self.add_leaf_groups(page, &leaf, tree);
        }
        let answers = answers_of(page, &leaf, tree, true)?;
        self.add(page, "$folder$/merge_leaf/Answers.antt", answers)?;
        self.add_view_leaf(page, &leaf, tree)
    }

    // Those of a leaf whose fields stand in groups.
    fn add_leaf_groups(
        &mut self,
        page: &mut Words,
        leaf: &[Field],
        tree: &Tree,
    ) -> Result<(), GenerateError> {
        for group in &tree.parts {
            let answers = leaf_group_answers_of(page, leaf, tree, group)?;
            page.copy(&group.words, &["low"]);
            let path = if group.first == 0 {
                "$folder$/merge_leaf/Answers.antt"
            } else {
                "proofs/$module$/$name$/merge_leaf_from_$low$/Answers.antt"
            };
            self.add(page, path, answers)?;
        }
        Ok(())
    }

    // Those of its rows, where a row has many messages.
    fn add_rows(
        &mut self,
        page: &mut Words,
        fields: &[Field],
        are_many: bool,
    ) -> Result<(), GenerateError> {
        let [of_row, of_push, of_put] = row_answers(page, fields, are_many)?;
        for (path, answers) in [
            ("$row_folder$/row/Answers.antt", of_row),
            ("$folder$/push/Answers.antt", of_push),
            ("$folder$/put/Answers.antt", of_put),
        ] {
            if !answers.is_empty() {
                self.add(page, path, answers)?;
            }
        }
        Ok(())
    }

    // Those of the parts of its runs: of one with a closed enum that stands once the search finds
    // that it is written as it is seen, and more than that is to be shown.
    fn add_parts(&mut self, page: &mut Words, fields: &[Field]) -> Result<(), GenerateError> {
        let mut is_closing = false;
        for field in fields
            .iter()
            .filter(|it| !it.words.get("in_part").is_empty())
        {
            is_closing |= is_closed_once(field);
            if field.words.get("high").is_empty() || std::mem::replace(&mut is_closing, false) {
                continue;
            }
            let answers = part_answers(page, field)?;
            page.copy(&field.words, &["low", "high"]);
            let path = "proofs/$module$/$name$Fields$low$To$high$Parts/put/Answers.antt";
            self.add(page, path, answers)?;
        }
        Ok(())
    }

    // Those of what makes a message of no records, where its fields are many.
    fn add_empty(&mut self, page: &mut Words, fields: &[Field]) -> Result<(), GenerateError> {
        let answers = leaf_empty_answers(page, fields, &EMPTY)?;
        self.add(page, "$folder$/empty/Answers.antt", answers)?;
        let answers = leaf_empty_answers(page, fields, &CLEAR)?;
        let path = "proofs/$module$/$name$MessageFields/clear/Answers.antt";
        self.add(page, path, answers)
    }

    // Those of `merge_field` of one of a family.
    fn add_member(&mut self, page: &mut Words, are_many: bool) -> Result<(), GenerateError> {
        page.fill("answers", MEMBER_MERGE);
        page.append("answers", if are_many { MEMBER_MERGE_OF_MANY } else { "" });
        let answers = page.finish("answers")?;
        let path = "proofs/$module$/$name$MessageFields/merge_field/Answers.antt";
        self.add(page, path, answers)
    }

    /// What message types that hold one another have together; the first of them is at this place.
    pub(crate) fn add_family(
        &mut self,
        schema: &Schema,
        first: usize,
    ) -> Result<(), GenerateError> {
        let mut page = Words::like(&self.base);
        let members = set_family(&mut page, schema, first)?;
        if let Some(message) = schema.messages.get(first) {
            page.copy(&message.words, &["charged", "schema", "requiring"]);
        }
        let tables = self.tables_of(schema, first, &members)?;
        let code = family_code(&page, &members)?;
        let definitions = family_definitions(&page, &tables)?;
        let answers = held_answers(&page, &members, &MERGE_LEAF)?;
        let are_many = tables.iter().any(|it| !it.get("are_many").is_empty());
        let of_take = held_answers(&page, &members, &TAKE)?;
        self.roots.copy(&page, &["family_name", "family_module"]);
        self.roots.append_all(&[
            ("modules", "mod $family_module$\n"),
            ("definitions", "pub mod $family_name$\n"),
        ]);
        self.add(&mut page, "src/$family_module$.rt", code)?;
        self.add(&mut page, "specs/$family_name$.antt", definitions)?;
        if has_laws(&self.base) {
            let proof = family_stays(&page, &tables)?;
            page.fill("name", "$family_name$");
            self.add_stays(&mut page, proof)?;
        }
        let path = "proofs/$family_module$/FamilyHeldRecursiveHeld/merge_leaf/Answers.antt";
        self.add(&mut page, path, answers)?;
        if are_many {
            let path = "proofs/$family_module$/FamilyHeldRecursiveHeld/take/Answers.antt";
            self.add(&mut page, path, of_take)?;
        }
        self.add_family_view(&page, schema, first, &members)
    }

    // A page of the table of each of these members.
    fn tables_of(
        &self,
        schema: &Schema,
        first: usize,
        members: &[Words],
    ) -> Result<Vec<Words>, GenerateError> {
        let mut tables = Vec::new(self.base.alloc());
        let mut all = Words::like(&self.base);
        for message in &schema.messages {
            if message.family == Some(first) {
                put_all_variants(&mut all, &fields_of(&self.base, schema, message)?);
            }
        }
        for member in members {
            for message in &schema.messages {
                let is_named = message.words.get("name") == member.get("name");
                if is_named && message.family == Some(first) {
                    tables.push(self.table_of(&all, schema, first, message)?)?;
                }
            }
        }
        Ok(tables)
    }

    // That of one, of all whose oneofs these are the variants.
    fn table_of(
        &self,
        all: &Words,
        schema: &Schema,
        first: usize,
        message: &MessageType,
    ) -> Result<Words, GenerateError> {
        let mut page = self.page(&message.words);
        page.copy(all, &["all_variants"]);
        page.copy(&message.words, &CHOICE);
        let fields = fields_of(&self.base, schema, message)?;
        set_leaf(&mut page, &fields);
        set_family(&mut page, schema, first)?;
        let (fields, tree) = leaf_tree(&mut page, fields)?;
        let mut table = table_page(&page, &fields, &tree);
        table.set("are_many", if tree.has_groups { "are_many" } else { "" });
        if has_laws(&self.base) {
            put_leaf_stays(&mut table, &fields, &tree);
        }
        Ok(table)
    }
}

// The most fields of which a derived clone is written: a proof of 68 was seen, and one of 80 is not
// covered. One that is written by hand says less.
const MOST_OF_DERIVED: usize = 72;

// Whether the clone of a message that holds itself is derived, as of all that it is held by.
fn has_derived_clone(schema: &Schema, message: &MessageType) -> bool {
    match message.family {
        Some(_) => {
            let messages = schema.messages.iter();
            let mut members = messages.filter(|it| it.family == message.family);
            members.all(|it| it.descriptor.field.len() <= MOST_OF_DERIVED)
        }
        None => message.descriptor.field.len() <= MOST_OF_DERIVED,
    }
}

// Whether a field is a closed enum, and no list or map of one.
fn is_closed_once(field: &Field) -> bool {
    let is_closed = field.words.get("call") == "merge_closed";
    is_closed && field.words.get("kind").starts_with("Optional")
}
