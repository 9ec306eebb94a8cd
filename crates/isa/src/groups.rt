// The groups of kinds: the first kind of each but the branches, which begin with the kinds, in order, and how many
// numbers kinds take. A kind is a number in the papers and in an entry's top byte, which C lends and which may name no
// kind, and the definitions (`meaning`, `kind_row`) and theorems are of every number. An enum of 88 kinds would need a
// table each way that says nothing more.
pub const NOP_MOVHI: u8 = 6;

pub const CONTROL: u8 = 8;

pub const LOAD: u8 = 16;

pub const ADD_IMMEDIATE: u8 = 23;

pub const IMMEDIATE: u8 = 25;

pub const COMPARE_IMMEDIATE: u8 = 33;

pub const STORE: u8 = 43;

pub const ARITHMETIC: u8 = 48;

pub const LOGIC: u8 = 51;

pub const COMPARE: u8 = 67;

pub const CACHE: u8 = 77;

pub const PRODUCT: u8 = 80;

// 0, which is no kind, and 88 kinds.
pub const KINDS: usize = 89;
