// The states of a volume.

// no record
pub const ABSENT: u32 = 0;

// none of the others
pub const GOOD: u32 = 1;

// the update marker is set
pub const UPDATING: u32 = 2;

// a copy is damaged or missing
pub const DAMAGED: u32 = 3;
