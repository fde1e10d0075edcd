// From what an answer comes.
use crate::digest::Digest;

/// From what an answer comes: a simulation file, and the options that stand in place of what it says.
#[derive(Debug, Drop)]
pub struct Origin {
    /// The digest of the file.
    pub digest: Digest,
    /// The options as they are written, as `--commands 1000 --load 0.7`. Empty where the file says all.
    pub options: String,
}
