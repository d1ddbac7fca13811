//! A report for other programs, as JSON, and for whoever looks, as a page.
#![tactic(auto)]

pub mod json;
pub mod page;
