//! The answers of a message of many fields, whose parts stand in groups.
use crate::package::Package;
use wire_definitions::Tree;
use wire_schema::{Field, GenerateError, Template, Words};
use wire_types::answers::group_answers_of;
use wire_types::copies_answers::copies_answers;
use wire_types::empty_answers::{CLEAR, DEFAULT_VALUE, empty_answers};

// The most fields of a message of which the search finds that it is made as it should.
const MOST_SEARCHED: usize = 48;

impl Package {
    /// The answers of what takes the records of each group, and of what makes a message.
    pub(crate) fn add_groups(
        &mut self,
        page: &mut Words,
        fields: &[Field],
        tree: &Tree,
    ) -> Result<(), GenerateError> {
        for group in &tree.parts {
            if tree.is_group(group) {
                let answers = group_answers_of(page, fields, tree, group)?;
                page.copy(&group.words, &["low"]);
                let path = if group.first == 0 {
                    "proofs/$module$/$name$MessageFields/merge_field/Answers.antt"
                } else {
                    "proofs/$module$/$name$/merge_from_$low$/Answers.antt"
                };
                self.add(page, path, answers)?;
            }
        }
        for function in [&DEFAULT_VALUE, &CLEAR] {
            self.add_empty_answers(page, fields, function)?;
        }
        let answers = copies_answers(page, fields, tree)?;
        self.add(
            page,
            "proofs/$module$/$name$Clone/clone/Answers.antt",
            answers,
        )
    }

    /// The answers of what makes a message whose fields stand in no groups, where there are so many
    /// that the search does not find them.
    pub(crate) fn add_default_value(
        &mut self,
        page: &mut Words,
        fields: &[Field],
    ) -> Result<(), GenerateError> {
        if fields.len() <= MOST_SEARCHED || page.get("unknown") != "keep" {
            return Ok(());
        }
        self.add_empty_answers(page, fields, &DEFAULT_VALUE)
    }

    fn add_empty_answers(
        &mut self,
        page: &mut Words,
        fields: &[Field],
        function: &'static [Template],
    ) -> Result<(), GenerateError> {
        let answers = empty_answers(page, fields, function)?;
        page.fill_all(function);
        self.add(
            page,
            "proofs/$module$/$name$MessageFields/$function$/Answers.antt",
            answers,
        )
    }
}
