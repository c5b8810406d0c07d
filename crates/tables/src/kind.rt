// The kinds of variables, as bytes and no enum: the table is lent by C, and each of the 256 bytes may stand in it.
pub const UNDECLARED: u8 = 0;

pub const UNIVERSAL: u8 = 1;

pub const EXISTENTIAL: u8 = 2;

pub const FORK: u8 = 3;
