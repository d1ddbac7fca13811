//! Tests of tables and of the ends of a channel, by worked rows.

#[cfg(test)]
mod channels;
#[cfg(test)]
mod tables;
