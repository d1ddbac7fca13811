//! Tests of counting words.

#[cfg(test)]
mod tests;
