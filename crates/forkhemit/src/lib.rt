// The library for hosts in C and other languages, `libforkhemit.a`: what include/forkhemit.h declares, an export for each function of the
// host crates.
#![tactic(auto)]

mod circuits_exports;
mod columns_exports;
mod excerpts_exports;
mod explained_exports;
mod game_exports;
mod indexed_exports;
mod late_exports;
mod lines_exports;
mod page_exports;
mod proofs_exports;
mod repeats_exports;
mod runs_exports;
mod solve_exports;
mod texts_exports;
mod version_exports;
mod weighted_exports;
mod whole_exports;
