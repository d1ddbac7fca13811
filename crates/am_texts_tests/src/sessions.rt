//! Tests of sessions: texts with what is printed, and the faults of texts.

#[cfg(test)]
mod tables;
#[cfg(test)]
mod tests;
