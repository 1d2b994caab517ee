// The numbers of document 01's table "When the desk says no" and those that document 02 adds, each named once, here.

// Rows 1 to 9, of a sheet.
pub const NO_BYTES: u8 = 1;

pub const HIGH_BIT: u8 = 2;

pub const FIRST_FIELDS: u8 = 3;

pub const CUT_RECORD: u8 = 4;

pub const DEPTH: u8 = 5;

pub const LABEL: u8 = 6;

pub const FAMILY: u8 = 7;

pub const NEEDLESS_FIELD: u8 = 8;

pub const FLEET_LIMIT: u8 = 9;

// Rows 10 to 17, of what a call is lent.
pub const NO_FLEET: u8 = 10;

pub const THRESHOLD: u8 = 11;

pub const SIZE_BOUND: u8 = 12;

pub const PATTERN_SIZE: u8 = 13;

pub const NO_TREE: u8 = 14;

pub const NOT_IN_FORM: u8 = 15;

pub const VEHICLE: u8 = 16;

pub const SHORT_OUTPUT: u8 = 17;

// Of pages, in the place of 17 (document 02).
pub const SHORT_PAGES: u8 = 18;

// Of a request, after 12 (document 02).
pub const PROFILE: u8 = 19;
