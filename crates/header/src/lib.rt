// The erase counter (EC) and volume identifier (VID) headers of a physical block, 64 bytes each: what they are, and
// their fields one by one.
#![tactic(auto)]

mod fields;

pub use fields::{
    EC_COUNTER, EC_DATA_START, EC_IMAGE_SEQ, EC_VERSION, EC_VID_START, VID_COMPAT, VID_COPY_FLAG,
    VID_DATA_CRC, VID_DATA_PAD, VID_DATA_SIZE, VID_LNUM, VID_SEQUENCE, VID_TYPE, VID_USED_LEBS,
    VID_VERSION, VID_VOLUME, begin, finish, get, is_header, set,
};

// The volume that holds the volume table.
pub const LAYOUT_VOLUME: u32 = 0x7FFFEFFF;

// The types of a volume.
pub const DYNAMIC: u8 = 1;

pub const STATIC: u8 = 2;

// The compatibility of a user volume, and those of internal volumes: what to do with one that is not known.
pub const COMPAT_NONE: u8 = 0;

pub const COMPAT_DELETE: u8 = 1;

pub const COMPAT_READ_ONLY: u8 = 2;

pub const COMPAT_PRESERVE: u8 = 4;

pub const COMPAT_REJECT: u8 = 5;

#[derive(Clone, Copy)]
pub struct EcHeader {
    pub version: u8,
    pub counter: u64,
    pub vid_start: u32,
    pub data_start: u32,
    pub image_seq: u32,
}

#[derive(Clone, Copy)]
pub struct VidHeader {
    pub version: u8,
    pub vol_type: u8,
    pub copy_flag: u8,
    pub compat: u8,
    pub volume: u32,
    pub lnum: u32,
    pub data_size: u32,
    pub used_lebs: u32,
    pub data_pad: u32,
    pub data_crc: u32,
    pub sequence: u64,
}

// Why a header is not read: it is bad (an EC header is lost then); newer, refusal 5; or too few bytes are lent,
// refusal 4.
#[derive(Clone, Copy)]
pub enum ReadError {
    Bad,
    Newer,
    Short,
}

// Why a header is not written: too few bytes are lent, refusal 4; it would not be read back as good, refusal 19.
#[derive(Clone, Copy)]
pub enum WriteError {
    Short,
    NotGood,
}
