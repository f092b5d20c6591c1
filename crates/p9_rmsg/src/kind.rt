// The numbers of the messages' types: that of the request and one more.

pub const RLERROR: u8 = 7;

pub const RSTATFS: u8 = 9;

pub const RLOPEN: u8 = 13;

pub const RLCREATE: u8 = 15;

pub const RSYMLINK: u8 = 17;

pub const RMKNOD: u8 = 19;

pub const RRENAME: u8 = 21;

pub const RREADLINK: u8 = 23;

pub const RGETATTR: u8 = 25;

pub const RSETATTR: u8 = 27;

pub const RXATTRWALK: u8 = 31;

pub const RXATTRCREATE: u8 = 33;

pub const RREADDIR: u8 = 41;

pub const RFSYNC: u8 = 51;

pub const RLOCK: u8 = 53;

pub const RGETLOCK: u8 = 55;

pub const RLINK: u8 = 71;

pub const RMKDIR: u8 = 73;

pub const RRENAMEAT: u8 = 75;

pub const RUNLINKAT: u8 = 77;

pub const RVERSION: u8 = 101;

pub const RAUTH: u8 = 103;

pub const RATTACH: u8 = 105;

pub const RFLUSH: u8 = 109;

pub const RWALK: u8 = 111;

pub const RREAD: u8 = 117;

pub const RWRITE: u8 = 119;

pub const RCLUNK: u8 = 121;

pub const RREMOVE: u8 = 123;
