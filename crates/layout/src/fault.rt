//! Why bytes of an image are refused.
use thiserror::Error;

/// What is wrong with the bytes of an image.
#[derive(Clone, Copy, Debug, PartialEq, Eq, Error)]
pub enum LayoutFault {
    #[error("Magic")]
    Magic,
    #[error("Version")]
    Version,
    #[error("Range")]
    Range,
}
