ghost use Rattle.std.specs.Prelude.{◌≡◌, [], IfOk};
ghost use Rattle.fd_kinds.specs.RowSize.{row_size};
ghost use Rattle.fd_rows.specs.Sizes.{held, series_size};

use crate::series::Series;
use fd_kinds::{Labels, NoMemory, Row, Share, Shared, Text, row_bytes};
use std::alloc::Global;

/// A series, and the bytes of a row of it whose other parts are empty.
#[derive(Drop)]
pub(crate) struct SizedSeries {
    pub series: Series,
    pub bytes: u64,
    ghost counted: { bytes ≡ held (series_size series) },
}

fn no_labels(alloc: Global) -> Labels
    ensures { result.pairs ≡ [] }
{
    Labels {
        pairs: Shared::new(alloc),
    }
}

/// A row of the series with nothing else in it.
fn plain_row(alloc: Global, series: &Series) -> Result<Row, NoMemory>
    ensures { IfOk result (λ row. row_size row ≡ series_size series.now) }
{
    Ok(Row {
        name: series.name.share()?,
        sample_type: Text::new(alloc),
        sample_unit: Text::new(alloc),
        period_type: Text::new(alloc),
        period_unit: Text::new(alloc),
        labels: series.labels.share()?,
        timestamp: 0,
        stack: Shared::new(alloc),
        pprof_labels: no_labels(alloc),
        period: 0,
        duration: 0,
        value: 0,
    })
}

impl SizedSeries {
    pub(crate) fn of(alloc: Global, series: Series) -> Result<SizedSeries, NoMemory>
        ensures { IfOk result (λ sized. sized.series ≡ series) }
    {
        let row = plain_row(alloc, &series)?;
        let bytes = row_bytes(&row);
        Ok(SizedSeries { series, bytes })
    }
}
