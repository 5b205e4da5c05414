// The command table by number.
pub const READ_DATA: u8 = 0xAD;

pub const WRITE_DATA: u8 = 0x8D;

pub const GET_VALUE: u8 = 0x6C;

pub const CREDIT: u8 = 0x0C;

pub const DEBIT: u8 = 0xDC;

pub const LIMITED_CREDIT: u8 = 0x1C;

pub const READ_RECORDS: u8 = 0xAB;

pub const WRITE_RECORD: u8 = 0x8B;

pub const CLEAR_RECORD_FILE: u8 = 0xEB;

pub const COMMIT_TRANSACTION: u8 = 0xC7;

pub const ABORT_TRANSACTION: u8 = 0xA7;

pub const GET_FILE_SETTINGS: u8 = 0xF5;

// AuthenticateEV2First, its first part and its second.
pub const AUTHENTICATE_FIRST: u8 = 0x71;

pub const AUTHENTICATE_SECOND: u8 = 0xAF;
