//! Tests of places and of stays: two threads at four books, and a frame that changes its owner.

#[cfg(test)]
mod notes;
#[cfg(test)]
mod tests;
