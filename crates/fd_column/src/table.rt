use fd_kinds::{Items, Text};

/// The columns of the five texts that each row has.
#[derive(Debug, Drop)]
pub struct Kinds<C> {
    pub name: C,
    pub sample_type: C,
    pub sample_unit: C,
    pub period_type: C,
    pub period_unit: C,
}

/// The columns of whole numbers.
#[derive(Debug, Drop)]
pub struct Wholes {
    pub timestamps: Items<i64>,
    pub periods: Items<i64>,
    pub durations: Items<i64>,
    pub values: Items<i64>,
}

/// A column of the values of one label, and the label's name.
#[derive(Debug, Drop)]
pub struct LabelColumn<C> {
    pub name: Text,
    pub cells: C,
}

/// The columns of numbered rows. Those of the labels stand in the order of their names.
#[derive(Debug, Drop)]
pub struct Table<C> {
    pub numbers: Items<u64>,
    pub kinds: Kinds<C>,
    pub labels: Items<LabelColumn<C>>,
    pub stacks: C,
    pub pprof_labels: Items<LabelColumn<C>>,
    pub wholes: Wholes,
}
