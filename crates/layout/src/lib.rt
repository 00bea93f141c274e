// The layout: from a source to words, data, labels, equates and items. The call is `assembler::assemble`; the stages are its own affair.
#![tactic(auto)]

mod addresses;
pub mod assembler;
mod bss;
mod data;
mod directives;
mod emit;
mod equates;
mod expansions;
mod expr;
mod fixups;
mod index;
mod items;
mod labels;
pub mod limits;
mod line;
mod little_endian;
mod names;
mod order;
mod pieces;
mod pseudo;
mod reader;
mod records;
pub mod refusal;
mod rounds;
mod scan;
mod stage;
mod state;
mod symbols;
mod tokens;
mod wanted;
mod writers;
