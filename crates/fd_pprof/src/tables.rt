ghost use Rattle.std.specs.Prelude.{◌≡◌, IfOk};
ghost use Rattle.fd_pprof.specs.Sizes.{location_sizes};
ghost use Rattle.fd_pprof.specs.Winners.{text_numbers};

use crate::catalog::Catalog;
use crate::numbers::numbers_of;
use crate::sizes::sizes_of;
use fd_kinds::{Items, NoMemory, Texts};
use std::alloc::Global;

/// A profile with its string table, the bytes of the frames of each location, and a number for
/// each text, by which equal texts are told without their bytes.
#[derive(Drop)]
pub(crate) struct Tables {
    pub catalog: Catalog,
    pub texts: Texts,
    pub sizes: Items<u64>,
    pub numbers: Items<usize>,
    ghost sized: { sizes ≡ location_sizes texts catalog.raw },
    ghost numbered: { numbers ≡ text_numbers texts },
}

impl Tables {
    pub(crate) fn of(alloc: Global, catalog: Catalog, texts: Texts) -> Result<Tables, NoMemory>
        ensures raw { IfOk result (λ tables. tables.catalog.raw ≡ catalog.raw) }
        ensures texts { IfOk result (λ tables. tables.texts ≡ texts) }
    {
        let sizes = sizes_of(alloc, &catalog, &texts)?;
        let numbers = numbers_of(alloc, &texts)?;
        Ok(Tables {
            catalog,
            texts,
            sizes,
            numbers,
        })
    }
}
