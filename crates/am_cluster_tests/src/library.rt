//! Tests of what a library is made of: each call made once with ample memory, and what a small run comes to.

mod drafts;
mod tests;
