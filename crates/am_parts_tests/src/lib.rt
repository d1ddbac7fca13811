//! Tests of the parts of the machine: blocks, endpoints and swaps; and of what threads share, links and places.
#![tactic(auto)]

mod blocks;
mod endpoints;
mod links;
mod places;
mod swaps;
