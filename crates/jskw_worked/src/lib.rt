//! Worked examples of the definitions: rows of a schema, an instance and what the standard wants of
//! them, in `proofs/`. The checker computes each with the definitions of `jskw_report`, and
//! compares.
#![tactic(auto)]
