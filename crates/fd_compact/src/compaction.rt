/// What a compaction did.
#[derive(Debug, Clone, Copy, PartialEq, Eq)]
pub enum Compaction {
    /// One sealed part has the rows of the numbers from `lo` to `hi`, so many.
    Compacted { lo: u64, hi: u64, rows: u64 },
    /// There were fewer than two parts to compact, so many.
    Nothing { parts: u64 },
    /// The block of the parts was closed meanwhile, and the active one is this.
    Overtaken { block: u64 },
    /// A loose part of this number was gone meanwhile.
    Changed { at: u64 },
}
