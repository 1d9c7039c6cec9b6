use crate::SmallBatch;
use fd_http::Method;
use fd_json::Fault;
use fd_kinds::Query;

/// What a request asks.
#[derive(Drop)]
pub enum Demand {
    /// To write a batch.
    Write(SmallBatch),
    /// To answer a query over the batches up to the watermark, which is at least `after`.
    Read { query: Query, after: u64 },
    /// To tell how far the store is.
    Stand,
    /// Nothing, since its resource has only this method.
    NotAllowed(Method),
    /// Nothing, since this fault is the first that holds.
    Refused(Fault),
}
