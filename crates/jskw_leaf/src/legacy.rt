//! The keywords that Draft 4 defines differently.
pub mod type_draft_4;
