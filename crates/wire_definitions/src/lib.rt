//! The definitions that are written of a message type: the pages of its `specs/`, what the parts of
//! its table and of its code are called, and the laws that it has. Every function ends and is safe,
//! for all descriptors; none has a contract, since what is written is proved by itself.
#![tactic(auto)]

mod account;
mod choice;
mod choice_laws;
mod choice_names;
mod choice_spot;
mod choice_view;
mod closing;
mod comments;
mod copied_parts;
mod definitions;
mod families;
mod imports;
mod keeping;
mod laws_pages;
mod leaf;
mod members;
mod mentioned;
mod nests_stay;
mod oneofs;
mod oneofs_stay;
mod pairs;
mod recursion;
mod recursive_back;
mod required;
mod required_oneof;
mod required_rows;
mod required_tables;
mod returned;
mod rows;
mod runs;
mod spans;
mod stays;
mod tree;
mod view_definitions;
mod view_folds;
mod width;

pub use choice_names::{put_all_variants, put_others, set_names};
pub use closing::{OF_CLOSED_VARIANT, closed_answers, closed_choice_answers, closed_view_answers};
pub use comments::{put_comment, put_field_comment, set_heading};
pub use copied_parts::copied_part;
pub use definitions::definitions_of;
pub use families::family_definitions;
pub use imports::{code_imports, definition_imports, ghost_imports};
pub use laws_pages::{
    ACCOUNT_USE, CHARGE_USES, CHARGED_LAW, CHARGED_LAW_ANSWERS, LAW, LAW_ANSWERS, LAW_USES, LAWS,
    STAY_LAW, STAY_LAW_ANSWERS, has_laws,
};
pub use leaf::set_leaf;
pub use members::{
    MEMBER_MERGE, MEMBER_MERGE_OF_MANY, MEMBER_PUSH, MEMBER_PUSH_HEAD, MEMBER_ROW, MEMBER_ROW_HEAD,
    member_definitions,
};
pub use mentioned::use_mentioned_of;
pub use nests_stay::{family_stays, member_stays, nest_stays, put_leaf_stays};
pub use oneofs::{inject, oneof_definitions, put_values};
pub use oneofs_stay::oneof_stays;
pub use recursion::{recursive_definitions, table_page};
pub use required::{DOCUMENTED, put_required, use_asked};
pub use required_oneof::{put_choice_requirement, put_requirement, use_variants};
pub use required_rows::{put_required_rows, use_asked_rows};
pub use rows::{is_row, leaf_tree, place_of};
pub use runs::{put_field_in_run, put_part_head, put_run};
pub use spans::has_groups;
pub use stays::{put_accounted_range, stays_of};
pub use tree::{Node, Tree, tree_of};
pub use view_definitions::has_view;
pub use width::{CALL_WIDTH, WIDTH};
