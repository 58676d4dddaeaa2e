//! Verifiers.

/// Eight bytes of whoever made them (cookieverf3, createverf3 and writeverf3, RFC 1813 section
/// 2.6).
#[derive(Clone, Copy, Debug, PartialEq, Eq)]
pub struct Verifier(pub [u8; 8]);
