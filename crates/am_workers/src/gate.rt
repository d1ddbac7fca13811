//! What a worker passes at the start of each of its turns.

/// What each worker passes at the start of each of its turns, by its own number and the number of the turn, both from 0. Workers
/// are numbered in the order of their nodes, and within a node: its threads by their numbers, its interface, its driver.
pub trait Gate {
    fn pass(&self, worker: u32, turn: u32);
}

/// A gate that does nothing.
#[derive(Clone, Copy)]
pub struct OpenGate;

impl Gate for OpenGate {
    fn pass(&self, _worker: u32, _turn: u32) {}
}
