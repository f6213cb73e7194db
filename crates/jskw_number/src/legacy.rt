//! The keywords that Draft 4 defines differently.
pub mod minmax_draft_4;

/// `maximum` in Draft 4 (Draft 4 Validation 5.1.2).
pub mod maximum_draft_4 {
    pub use super::minmax_draft_4::compile_maximum as compile;
}

/// `minimum` in Draft 4 (Draft 4 Validation 5.1.3).
pub mod minimum_draft_4 {
    pub use super::minmax_draft_4::compile_minimum as compile;
}
