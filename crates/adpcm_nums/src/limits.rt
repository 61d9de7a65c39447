//! What a bank may hold at most: each number stands here alone.

/// Blocks of a sample, at most.
pub const MOST_BLOCKS: u32 = 4096;

/// Targets of a sample, at most.
pub const MOST_SAMPLES: u32 = 262_144;

/// Bytes of a bank's stored file, at most.
pub const MOST_STORED: u64 = 8_388_608;

/// Bytes of a WAVE source, at most.
pub const MOST_SOURCE: u64 = 4_194_304;

/// Bytes of a certificate, at most.
pub const MOST_CERTIFICATE: u64 = 33_554_432;

/// Bytes of a manifest, at most.
pub const MOST_MANIFEST: u64 = 65_536;
