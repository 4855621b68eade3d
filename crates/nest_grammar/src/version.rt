//! The versions of files.

/// The version of a file: one nest, or up to eight that run one after another.
#[derive(Clone, Copy, Debug, PartialEq, Eq)]
pub enum Version {
    One,
    Two,
}
