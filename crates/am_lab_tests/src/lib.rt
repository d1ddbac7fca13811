//! Tests of the lab's top call: its words, and what is told of small texts.
#![tactic(auto)]

#[cfg(test)]
mod answers;
#[cfg(test)]
mod tables;
#[cfg(test)]
mod tests;
