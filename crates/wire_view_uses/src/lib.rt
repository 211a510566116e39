//! What callers do with the views of [wire_albums](../../wire_albums/README.md) and of
//! [wire_bands](../../wire_bands/README.md), and what a message and its view make of the same bytes.
#![tactic(auto)]

pub mod both;
#[cfg(test)]
mod choices;
#[cfg(test)]
mod closed;
#[cfg(test)]
mod lengths;
pub mod maps;
#[cfg(test)]
mod nested;
pub mod numbers;
#[cfg(test)]
mod orders;
#[cfg(test)]
mod tests;
pub mod uses;
#[cfg(test)]
mod weights;
#[cfg(test)]
mod written;
