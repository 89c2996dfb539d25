// The listing: a text of a logger's tables and of instructions, run, and what is written of it.
#![tactic(auto)]

mod bounds;
mod cells;
mod dos;
mod entries;
mod lines;
mod put;
mod run;

pub use run::cellrun;
