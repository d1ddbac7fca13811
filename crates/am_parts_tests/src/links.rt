//! Tests of links: what comes out of a link on one thread, and from one thread to another.

#[cfg(test)]
mod tests;
