// The types of boxes that are read, as the numbers that their four letters are.
pub const FTYP: u32 = 0x66747970;

pub const MOOV: u32 = 0x6d6f6f76;

pub const MOOF: u32 = 0x6d6f6f66;

pub const MDAT: u32 = 0x6d646174;

pub const EMSG: u32 = 0x656d7367;

pub const MVHD: u32 = 0x6d766864;

pub const TRAK: u32 = 0x7472616b;

pub const MVEX: u32 = 0x6d766578;

pub const TREX: u32 = 0x74726578;

pub const TKHD: u32 = 0x746b6864;

pub const EDTS: u32 = 0x65647473;

pub const MDIA: u32 = 0x6d646961;

pub const ELST: u32 = 0x656c7374;

pub const MDHD: u32 = 0x6d646864;

pub const HDLR: u32 = 0x68646c72;

pub const MINF: u32 = 0x6d696e66;

pub const DINF: u32 = 0x64696e66;

pub const STBL: u32 = 0x7374626c;

pub const DREF: u32 = 0x64726566;

pub const URL: u32 = 0x75726c20;

pub const STSD: u32 = 0x73747364;

pub const STTS: u32 = 0x73747473;

pub const CTTS: u32 = 0x63747473;

pub const STSC: u32 = 0x73747363;

pub const STSZ: u32 = 0x7374737a;

pub const STCO: u32 = 0x7374636f;

pub const CO64: u32 = 0x636f3634;

pub const STSS: u32 = 0x73747373;

pub const AVC1: u32 = 0x61766331;

pub const MP4A: u32 = 0x6d703461;

pub const VP09: u32 = 0x76703039;

pub const TX3G: u32 = 0x74783367;

pub const AVCC: u32 = 0x61766343;

pub const ESDS: u32 = 0x65736473;

pub const VPCC: u32 = 0x76706343;

pub const MFHD: u32 = 0x6d666864;

pub const TRAF: u32 = 0x74726166;

pub const TFHD: u32 = 0x74666864;

pub const TFDT: u32 = 0x74666474;

pub const TRUN: u32 = 0x7472756e;
