// The limits of documents 01 and 02 that the code has (specs/Limits.antt).
pub const TEXT_LIMIT: usize = 32768;

pub const RECORDS_LIMIT: usize = 32768;

pub const LITERAL_LIMIT: usize = 8192;

pub const CLAUSE_LIMIT: usize = 2048;

pub const VARIABLE_LIMIT: usize = 512;

pub const UNIVERSAL_LIMIT: u16 = 256;

pub const WIDTH_LIMIT: usize = 32;

// of a formula that is decided by trying every family
pub const SMALL_UNIVERSALS: u16 = 4;

pub const SMALL_BITS: u32 = 16;
