//! Tests of the top call: each command over texts, and over sources and sinks that fail.

#[cfg(test)]
pub(crate) mod answers;
#[cfg(test)]
mod direct;
#[cfg(test)]
mod faults;
#[cfg(test)]
mod packet;
#[cfg(test)]
mod scripts;
#[cfg(test)]
pub(crate) mod tables;
#[cfg(test)]
mod tests;
#[cfg(test)]
mod texts;
