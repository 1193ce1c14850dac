//! A caller of `lnt_wire`, `lnt_unit`, `lnt_machine`, `lnt_lines`, `lnt_table` and `lnt_cli`, and of nothing below them. It names each
//! type, variant, field, function and law that callers rely on, with its types, so a change that moves or renames one doesn't pass.
//! What the calls do is shown by their own contracts and tests.
//!
//! A module is for a crate. Where the crate of a caller can't be written otherwise, `docs/DECISIONS.md` says why.
#![tactic(auto)]

pub mod cli;
pub mod lines;
pub mod machine;
pub mod table;
pub mod unit;
pub mod wire;
