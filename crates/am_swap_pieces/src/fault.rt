//! Why bytes are no image.

use thiserror::Error;

/// Why no body was read.
#[derive(Clone, Copy, Debug, Error)]
pub enum ImageFault {
    /// The bytes are no image of a body of the endpoint.
    #[error("the bytes are the image of no body")]
    NoBody,
    #[error("there is no memory for the body")]
    NoMemory,
}
