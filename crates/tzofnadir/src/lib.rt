// The library for C: each call under its name, with the contract of the crate that it stands in, and nothing but that call. `rt lib` makes one
// archive of it. The header is station/tzofnadir.h.
#![tactic(auto)]

pub mod around;
pub mod bytes;
pub mod counts;
pub mod engines;
pub mod files;
pub mod films;
pub mod listing;
pub mod plain;
pub mod room;
