//! Tests of the scenario's text: small texts with the fault that each has, how many lines there may be, and what a plan releases.

#[cfg(test)]
mod limits;
#[cfg(test)]
mod runs;
#[cfg(test)]
mod single_lines;
#[cfg(test)]
mod tables;
#[cfg(test)]
mod tests;
