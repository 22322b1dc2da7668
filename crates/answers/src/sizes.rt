// Document 01, "Sizes": the most of each thing, and the least lent length of each buffer.
pub const MOST_SUBJECTS: usize = 48;

pub const MOST_OBJECTS: usize = 64;

pub const MOST_ROLES: usize = 48;

pub const MOST_SEPARATIONS: usize = 64;

pub const MOST_ENTITIES: usize = 112;

pub const MOST_TEXT: usize = 44240;

pub const MOST_TRANSFERS: usize = 4096;

pub const MOST_TRANSFER_BYTES: usize = 12288;

pub const LEAST_ASSIGNMENT: usize = 2304;

pub const LEAST_PERMISSION: usize = 3072;

pub const LEAST_SEPARATIONS: usize = 128;

pub const LEAST_FLOW: usize = 12544;

pub const LEAST_CHAIN: usize = 112;

pub const LEAST_LABEL: usize = 112;

pub const LEAST_EFFECT: usize = 112;

pub const LEAST_TEXT: usize = 44240;

pub const LEAST_MARKS: usize = 112;

pub const LEAST_VERDICTS: usize = 4096;
