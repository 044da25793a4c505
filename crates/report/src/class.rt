// The classes of a PEB.

// a good EC header, and VID bytes all 0xFF
pub const FREE: u32 = 0;

// the copy that counts
pub const CHOSEN: u32 = 1;

// a copy that does not count
pub const PASSED_OVER: u32 = 2;

// both headers all 0xFF
pub const BLANK: u32 = 3;

// a bad VID header that is not all 0xFF; or VID bytes all 0xFF, and an EC header that is lost and not all 0xFF
pub const UNREADABLE: u32 = 4;

// a block that may be deleted
pub const TO_DELETE: u32 = 5;

// a block of an internal volume that is kept
pub const KEPT_ASIDE: u32 = 6;
