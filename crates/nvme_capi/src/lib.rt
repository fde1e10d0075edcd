//! The C library: an export for each call of the libraries that needs no thread and no memory. Each export is total: it
//! states the clauses of the library's call for every state that it accepts, even one that no call made. Only of a
//! controller (`ctrl`) more is said where nobody else wrote into a state that has its mark.
//! `capi/nvmearb.h` declares the exports for C.
#![tactic(auto)]

mod admin;
mod answers;
mod arbiter;
mod board;
mod ctrl;
mod entries;
mod fields;
mod io_status;
mod outcomes;
mod results;
mod settings;
mod shown;
mod states;
mod table;
mod version;
