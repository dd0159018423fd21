// Where what is stored lies on a device.

pub(crate) const HEADER: usize = 0;

pub(crate) const FIRST_RECORD: usize = 1;

pub(crate) const FIRST_HOME: usize = 26;

pub(crate) const HOMES: usize = 25;

pub(crate) const BLOCKS: usize = FIRST_HOME + HOMES;
