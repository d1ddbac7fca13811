//! Tests of blocks: slots that go round with plain lists beside them, and a block that ends with slots in every list.

#[cfg(test)]
mod tests;
