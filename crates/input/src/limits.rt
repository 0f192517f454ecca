// How many bytes of the standard input a program reads at most, for one text and for many.
pub const MAX_BYTES_OF_TEXT: u64 = 65_536;

pub const MAX_BYTES_OF_TEXTS: u64 = 1_048_576;

// The byte that ends each of many texts.
pub const TEXT_END: u8 = 1;
