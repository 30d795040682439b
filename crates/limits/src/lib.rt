// The numbers that document 01 sets, each once in the code; `meaning.Limits` has them in the written meaning (`meaning.Records` the mark), and no promise holds unless the two agree.
#![tactic(auto)]

// A sheet: so many events, causes, conflicts, roots and nodes at most, and so many bytes.
pub const EVENTS: usize = 32;

pub const CAUSES: usize = 64;

pub const CONFLICTS: usize = 64;

pub const ROOTS: usize = 16;

pub const NODES: usize = 64;

pub const SHEET: usize = 4096;

// Its records: the mark. Their kinds are `records::Kind`.
pub const MARK_FIRST: u8 = 0xB4;

pub const MARK_SECOND: u8 = 0x4D;

// Its nodes: kinds below this.
pub const NODE_KINDS: usize = 8;

// A path, and a root: so many bytes.
pub const PATH: usize = 255;

pub const ROOT_LEAST: usize = 2;

pub const ROOT_MOST: usize = 120;

// A history: so many sessions kept, and so many begun.
pub const KEPT: usize = 64;

pub const TOTAL: u32 = 4294967295;

// An image: the kinds of its header and of its sessions; where total, let go and the row carried stand, and where the header ends; the length of a session, and
// where its set stands in it.
pub const HEADER_KIND: u8 = 8;

pub const SESSION_KIND: u8 = 9;

pub const TOTAL_AT: usize = 3;

pub const GONE_AT: usize = 7;

pub const CARRIED_AT: usize = 11;

pub const HEADER: usize = 19;

pub const SESSION: usize = 7;

pub const SET_AT: usize = 3;

// The bytes of a count, of a row and of a set in it.
pub const COUNT_BYTES: usize = 4;

pub const ROW_BYTES: usize = 8;

pub const SET_BYTES: usize = 4;

// The bits of the word that a row is kept in.
pub const WORD_BITS: usize = 64;
