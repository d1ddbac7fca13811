//! Tests of plain data and texts: sources and sinks, the order of names, printed lines.

#[cfg(test)]
mod entries;
#[cfg(test)]
mod events;
#[cfg(test)]
mod patient;
#[cfg(test)]
mod streams;
#[cfg(test)]
mod tests;
