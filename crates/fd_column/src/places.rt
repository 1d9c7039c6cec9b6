//! The places of the columns that each table has. The columns of labels stand behind them.

/// The number of a row's batch.
pub const NUMBER: usize = 0;

pub const NAME: usize = 1;

pub const SAMPLE_TYPE: usize = 2;

pub const SAMPLE_UNIT: usize = 3;

pub const PERIOD_TYPE: usize = 4;

pub const PERIOD_UNIT: usize = 5;

/// In milliseconds since the Unix epoch.
pub const TIMESTAMP: usize = 6;

pub const STACK: usize = 7;

pub const PERIOD: usize = 8;

/// In nanoseconds.
pub const DURATION: usize = 9;

pub const VALUE: usize = 10;

/// How many columns each table has.
pub const FIXED_COLUMNS: usize = 11;
