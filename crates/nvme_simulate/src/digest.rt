// The digest of a simulation file.
use sha2::{Digest as _, Sha256};

// How many hexadecimal digits it has.
const DIGITS: usize = 64;

/// The SHA-256 digest of a text, in hexadecimal.
#[derive(Clone, Copy, Debug, PartialEq, Eq)]
pub struct Digest {
    digits: [u8; DIGITS],
}

impl Digest {
    /// The digest of this text.
    pub fn of(text: &[u8]) -> Digest {
        let mut digits = [b'0'; DIGITS];
        let Ok(()) = hex::encode_to_slice(Sha256::digest(text).as_slice(), &mut digits) else {
            unreachable!()
        };
        Digest { digits }
    }

    /// Its digits, in lower case.
    pub fn as_str(&self) -> &str {
        std::str::from_utf8(&self.digits).unwrap_or("")
    }
}
