// The quadratic map and its polar form, over any field.
#![tactic(auto)]

mod at;
mod map;
mod terms;
#[cfg(test)]
mod tests;
mod triangle;
mod values;

pub use at::{evaluate, evaluate_in, evaluate_polar, evaluate_polar_in};
pub use map::Map;
pub use values::MONOMIALS;
