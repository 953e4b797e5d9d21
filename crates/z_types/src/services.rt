//! What the gateway and the test targets agree on at an Init (ANSI/NISO Z39.50-2003, 3.2.1.1.3 Version
//! and 3.2.1.1.4 Options). Definitions have the same names.

/// Versions 1 to 3: bit k is version k + 1.
pub const OWN_VERSIONS: u32 = 0b111;

/// Named result sets, of the options.
pub const NAMED_RESULT_SETS: u32 = 1 << 14;

/// Search, present, scan and named result sets, of the options.
pub const OWN_OPTIONS: u32 = 1 << 0 | 1 << 1 | 1 << 7 | NAMED_RESULT_SETS;
