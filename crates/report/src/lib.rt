// What the program says: reports, refusals in words, bytes in hexadecimal.
#![tactic(auto)]

pub mod compare;
pub mod hex;
pub mod scan;
#[cfg(test)]
mod tests;
pub mod words;
