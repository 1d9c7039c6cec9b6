/// The number up to which the seat that scanned the pins may seal. It serves that seat alone.
#[derive(Debug, Drop)]
pub struct Limit {
    pub l: u64,
}
