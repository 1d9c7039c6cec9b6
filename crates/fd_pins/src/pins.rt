/// The watermark that a seat has pinned. It serves that seat alone, until it is unpinned.
#[derive(Debug, Drop)]
pub struct Pin {
    pub w: u64,
}
