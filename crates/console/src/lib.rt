// What the program `mqdss` does, command by command.
#![tactic(auto)]

pub mod ask;
pub mod command;
pub mod demo;
pub mod failure;
pub mod files;
pub mod key_commands;
pub mod scan;
pub mod session;
pub mod signatures;
