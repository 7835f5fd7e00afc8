//! The fingerprint of the texts of an application.
ghost use Rattle.std.specs.Prelude.{◌≡◌};
ghost use Rattle.device_acts.specs.Fingerprints.{fingerprint};

use sha2::{Digest, Sha256};

/// The SHA-256 digest of the definition's length as a big-endian u64, the definition and the units. It takes no memory.
pub fn fingerprint_of(definition: &[u8], units: &[u8]) -> [u8; 32]
    ensures { result ≡ fingerprint definition.now units.now }
{
    let length = definition.len() as u64;
    let mut hasher = Sha256::new();
    hasher.update(length.to_be_bytes());
    hasher.update(definition);
    hasher.update(units);
    hasher.finalize()
}
