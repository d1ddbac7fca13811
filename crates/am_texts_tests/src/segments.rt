//! Tests of segments: texts with the fault that each has.

#[cfg(test)]
mod tables;
#[cfg(test)]
mod tests;
