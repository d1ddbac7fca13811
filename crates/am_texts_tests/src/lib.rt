//! Tests of texts: scenarios, segments, sessions and counted words that are read, reports that are printed and checked, commands answered.
#![tactic(auto)]

mod checked;
mod commands;
mod jobs;
mod printed;
#[cfg(test)]
mod readers;
mod scenarios;
mod segments;
mod sessions;
#[cfg(test)]
mod texts;
