//! The limits of certificates.

/// The most bytes of a certificate.
pub const CERT_LIMIT: u64 = 1 << 24;
