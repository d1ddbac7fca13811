//! Tests of the calls of a whole cluster: each made once with ample memory, its threads at work at the same time, and a library over it.
#![tactic(auto)]

#[cfg(test)]
mod devices;
#[cfg(test)]
mod disks;
#[cfg(test)]
mod far_disk;
#[cfg(test)]
mod gates;
#[cfg(test)]
mod library;
#[cfg(test)]
mod parted;
#[cfg(test)]
mod phases;
#[cfg(test)]
mod slots;
#[cfg(test)]
mod workloads;
