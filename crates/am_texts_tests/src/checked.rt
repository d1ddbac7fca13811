//! Tests of the checker of printed journals: reports with what it answers for each.

#[cfg(test)]
mod run_tables;
#[cfg(test)]
mod tables;
#[cfg(test)]
mod tests;
