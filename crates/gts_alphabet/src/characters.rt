/// Start of heading: the first byte of a message (International Alphabet No. 5).
pub const SOH: u8 = 0x01;

/// End of text: the last byte of a message (International Alphabet No. 5).
pub const ETX: u8 = 0x03;

/// Line feed.
pub const LF: u8 = 0x0a;

/// Carriage return.
pub const CR: u8 = 0x0d;

/// The space between the groups of a heading.
pub const BLANK: u8 = 0x20;

/// The end of each line of a message: carriage return twice, and line feed (WMO-No. 386, message format).
pub const EOL: [u8; 3] = [13, 13, 10];
