// The codes in memory that stand for no number.

// An entry of the table that no rule claims.
pub const NO_ENTRY: u32 = 4294967295;

// The same where rules are bytes.
pub const NO_RULE: u8 = 255;

// An entry of the memo table: the call failed, or was not made. Any other is an end.
pub const FAILED: u16 = 65534;

pub const UNCALLED: u16 = 65535;
