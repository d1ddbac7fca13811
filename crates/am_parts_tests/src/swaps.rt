//! Tests of swapping: the images of bodies, by hand.

#[cfg(test)]
mod images;
#[cfg(test)]
mod tests;
