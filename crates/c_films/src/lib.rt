// The calls on films for C, and the room's: numbers and slices in, 0 or the refusal's number out.
#![tactic(auto)]

pub mod films;
pub mod room;
