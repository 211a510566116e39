//! The files of the view of a message type, and of those of its oneofs.
use crate::package::Package;
use wire_definitions::{Tree, closed_view_answers, has_view};
use wire_schema::{Field, GenerateError, Oneof, Schema, Words};
use wire_types::oneof_proofs::view_merge_answers;
use wire_types::view_answers::view_answers_of;
use wire_types::view_code::view_code_of;
use wire_types::view_oneof::oneof_view_code;

// What the README says of views.
const VIEWED: &str =
    " A view is read just where its message is, as the\nsame value, and `own` makes the \
                      message of it.";

impl Package {
    /// The view of a message, where it has one.
    pub(crate) fn add_view(
        &mut self,
        page: &Words,
        schema: &Schema,
        fields: &[Field],
        tree: &Tree,
    ) -> Result<(), GenerateError> {
        if !has_view(page) {
            return Ok(());
        }
        self.need_views();
        let code = view_code_of(page, schema, fields)?;
        self.add_module(page, code)?;
        if fields.is_empty() {
            return Ok(());
        }
        let answers = view_answers_of(page, fields, tree)?;
        let path = "proofs/$view_module$/$view_name$MessageView/merge_field/Answers.antt";
        self.add(&mut Words::like(page), path, answers)
    }

    /// The view of a oneof, where its message has one.
    pub(crate) fn add_oneof_view(
        &mut self,
        page: &Words,
        oneof: &Oneof,
    ) -> Result<(), GenerateError> {
        if !has_view(page) {
            return Ok(());
        }
        let code = oneof_view_code(page, oneof)?;
        self.add_module(page, code)?;
        let answers = view_merge_answers(page, oneof)?;
        let path = "proofs/$view_module$/$view_kind_name$ViewKind/merge/Answers.antt";
        self.add(&mut Words::like(page), path, answers)?;
        for variant in &oneof.variants {
            if !variant.get("closed").is_empty() {
                self.add_closed_view(page, variant)?;
            }
        }
        Ok(())
    }

    // The answers of a variant of a closed enum.
    fn add_closed_view(&mut self, page: &Words, variant: &Words) -> Result<(), GenerateError> {
        let answers = closed_view_answers(page, variant)?;
        let mut page = Words::like(page);
        page.copy(variant, &["word"]);
        let path = "proofs/$view_module$/set_or_keep_$word$/Answers.antt";
        self.add(&mut page, path, answers)
    }

    /// The module of a view, which the crate passes on as it does the type that it is of.
    pub(crate) fn add_module(&mut self, page: &Words, code: String) -> Result<(), GenerateError> {
        let mut view = Words::like(page);
        view.fill_all(&[("name", "$view_name$"), ("module", "$view_module$")]);
        self.add_code(&mut view, code)
    }

    /// The crate stands on that of views.
    pub(crate) fn need_views(&mut self) {
        if self.roots.get("viewed").is_empty() {
            self.roots.set("viewed", VIEWED);
            self.roots.append("needs", " wire_views");
        }
    }
}
