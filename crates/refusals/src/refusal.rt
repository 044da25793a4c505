// Refusal numbers, in the order of checking. A step's 18 and a header writer's 19 are cases of their answers.

// the slip is malformed
pub const MALFORMED_SLIP: u32 = 1;

// the geometry is outside its rules
pub const BAD_GEOMETRY: u32 = 2;

// the image is not 2 to 4,096 whole PEBs
pub const BAD_IMAGE_SIZE: u32 = 3;

// a lent table or header buffer is too short
pub const SHORT_BUFFER: u32 = 4;

// a header's version is above 1
pub const NEWER_HEADER: u32 = 5;

// a good EC header names other VID or data starts
pub const OTHER_STARTS: u32 = 6;

// the image sequence is not 0 and differs from that of the lowest PEB that has one
pub const OTHER_IMAGE_SEQ: u32 = 7;

// an unknown internal volume has compatibility 5
pub const UNKNOWN_INTERNAL: u32 = 8;

// two good VID headers of one LEB share a sequence
pub const REPEATED_SEQUENCE: u32 = 9;

// every PEB is free or blank
pub const EMPTY_IMAGE: u32 = 10;

// no good table
pub const NO_TABLE: u32 = 11;

// a user entry of the map does not fit its record or its volume's first entry
pub const ENTRY_MISFIT: u32 = 12;

// mover: the read-only mark, or a compatibility 1 block stands
pub const NOT_WRITABLE: u32 = 13;

// mover: the LEB is not in the map
pub const LEB_NOT_MAPPED: u32 = 14;

// mover: the chosen copy is unsound, or static with a wrong data CRC
pub const DAMAGED_COPY: u32 = 15;

// mover: the target is absent, not free, or not 0xFF past its EC header
pub const BAD_TARGET: u32 = 16;

// mover: no sequence or no erase counter is left
pub const NUMBERS_USED_UP: u32 = 17;

// builder: a volume field is not 11 to 137 bytes, there are more than records, or the table is not good
pub const BAD_VOLUMES: u32 = 20;

// builder: the lengths are not one for each volume, do not sum to the content, or a content does not fit its volume
pub const BAD_CONTENT: u32 = 21;
