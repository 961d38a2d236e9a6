//! Which release of the program this is.

/// The number of the version.
pub const VERSION: &str = "1.27.0";
/// The digest of the sources.
pub const SOURCES: &str = "67d04a9b7d585c08dc7eb511c482ef82669f0f64e0cab719bfc64b66865b5433";
/// The kit.
pub const KIT: &str = "rattle-kit-13f logic dac8208d650f15bf";
