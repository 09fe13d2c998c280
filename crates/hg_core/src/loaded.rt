//! What a collector's pass has loaded of a session.

use crate::register::Register;

/// The register, and the mask word, once the pass has loaded that too.
#[derive(Clone, Copy)]
pub struct Loaded {
    pub register: Register,
    pub mask: Option<u64>,
}
