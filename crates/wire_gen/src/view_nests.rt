//! The files of the views of message types that hold themselves or one another.
use crate::package::Package;
use wire_definitions::{Tree, has_view, leaf_tree, set_leaf};
use wire_schema::{Field, GenerateError, Schema, Template, Words, fields_of};
use wire_types::choice_code::CHOICE;
use wire_types::family::set_family;
use wire_types::view_answers::view_leaf_answers_of;
use wire_types::view_family::{MEMBER_MERGE, family_view_code, view_leaf_answers};
use wire_types::view_owned::{put_owned, tell_held};
use wire_types::view_recursive::recursive_view_of;
use wire_types::view_row_answers::{
    begin_owned, owned_answers, put_owned_answers, view_push_answers,
};

// Where the proofs of the view of a type that holds itself alone are, and of one of a family.
const FOLDER: Template = (
    "held_folder",
    "proofs/$view_module$/$view_name$RecursiveHeldRefSliceU8",
);

const MEMBER_FOLDER: Template = (
    "held_folder",
    "proofs/$view_module$/$view_name$RecursiveViewFamilyView",
);

impl Package {
    /// The view of a message that holds itself or is of a family, where it has one; these are its
    /// fields.
    pub(crate) fn add_recursive_view(
        &mut self,
        page: &Words,
        schema: &Schema,
        fields: &[Field],
    ) -> Result<(), GenerateError> {
        if !has_view(page) {
            return Ok(());
        }
        self.need_views();
        let mut page = Words::like(page);
        let is_member = !page.get("family_name").is_empty();
        page.fill_all(if is_member {
            &[MEMBER_FOLDER]
        } else {
            &[FOLDER]
        });
        let pushed = view_push_answers(&page, fields)?;
        self.add_some(&mut page, "$held_folder$/push/Answers.antt", pushed)?;
        page.fill_all(&[("uses", ""), ("head_ghosts", ""), ("all_owned", "")]);
        page.fill("kinds_code", "");
        if is_member {
            page.fill("answers", MEMBER_MERGE);
            let answers = page.finish("answers")?;
            let path = "proofs/$view_module$/$view_name$MessageView/merge_field/Answers.antt";
            self.add(&mut page, path, answers)?;
        } else {
            let mut own = Words::like(&page);
            begin_owned(&mut own, "$view_module$");
            put_owned_answers(&mut own, fields);
            self.add_owned(&mut own)?;
            page.fill_all(&[("each_of", ""), ("once_of", "")]);
            tell_held(&mut page, fields);
            put_owned(&mut page, fields);
            page.append("uses", "$kinds_code$");
        }
        let code = recursive_view_of(&page, schema, fields)?;
        self.add_module(&page, code)
    }

    // The invariants and answers of what makes messages of views.
    fn add_owned(&mut self, page: &mut Words) -> Result<(), GenerateError> {
        let [invariants, owned] = owned_answers(page)?;
        let path = "proofs/$own_module$/+own/Invariants.antt";
        self.add_some(page, path, invariants)?;
        self.add(page, "proofs/$own_module$/+own/Answers.antt", owned)
    }

    /// The answers of the leaf of such a view, which has these fields, of that tree.
    pub(crate) fn add_view_leaf(
        &mut self,
        page: &mut Words,
        leaf: &[Field],
        tree: &Tree,
    ) -> Result<(), GenerateError> {
        if !has_view(page) {
            return Ok(());
        }
        let answers = view_leaf_answers_of(page, leaf, tree)?;
        let is_member = !page.get("family_name").is_empty();
        page.fill_all(if is_member {
            &[MEMBER_FOLDER]
        } else {
            &[FOLDER]
        });
        self.add(page, "$held_folder$/merge_leaf/Answers.antt", answers)
    }

    /// What views that hold one another have together, where they are there; the first of their
    /// types is at this place, and these are their words.
    pub(crate) fn add_family_view(
        &mut self,
        page: &Words,
        schema: &Schema,
        first: usize,
        members: &[Words],
    ) -> Result<(), GenerateError> {
        if !members.iter().all(has_view) {
            return Ok(());
        }
        let mut all = Vec::new(page.alloc());
        let mut own = Words::like(page);
        begin_owned(&mut own, "$family_view_module$");
        for member in members {
            let fields = self.fields_of_member(schema, first, member)?;
            own.copy(member, &["name", "module", "view_name", "view_module"]);
            own.copy(member, &CHOICE);
            put_owned_answers(&mut own, &fields);
            all.push(fields)?;
        }
        self.add_owned(&mut own)?;
        let mut page = Words::like(page);
        page.fill_all(&[("uses", ""), ("head_ghosts", ""), ("all_owned", "")]);
        page.fill("kinds_code", "");
        let code = family_view_code(&page, members, &all)?;
        self.roots.copy(&page, &["family_view_module"]);
        self.roots.append("modules", "mod $family_view_module$\n");
        self.add(&mut page, "src/$family_view_module$.rt", code)?;
        let answers = view_leaf_answers(&page, members)?;
        let path =
            "proofs/$family_view_module$/FamilyViewRecursiveHeldRefSliceU8/merge_leaf/Answers.antt";
        self.add(&mut page, path, answers)
    }

    // The fields of one of a family, of which some are rows.
    fn fields_of_member(
        &self,
        schema: &Schema,
        first: usize,
        member: &Words,
    ) -> Result<Vec<Field>, GenerateError> {
        for message in &schema.messages {
            let is_named = message.words.get("name") == member.get("name");
            if is_named && message.family == Some(first) {
                let mut page = self.page(&message.words);
                page.copy(&message.words, &CHOICE);
                let fields = fields_of(&self.base, schema, message)?;
                set_leaf(&mut page, &fields);
                set_family(&mut page, schema, first)?;
                let (fields, _) = leaf_tree(&mut page, fields)?;
                return Ok(fields);
            }
        }
        Ok(Vec::new(self.base.alloc()))
    }

    // A file that is not written where it is empty.
    fn add_some(
        &mut self,
        page: &mut Words,
        path: &str,
        content: String,
    ) -> Result<(), GenerateError> {
        if content.is_empty() {
            return Ok(());
        }
        self.add(page, path, content)
    }
}
