ghost use Rattle.std.specs.Prelude.{◌≡◌, ◌==◌, IfOk, find};
ghost use Rattle.std.specs.Option.{option_copied};
ghost use Rattle.fd_pprof.specs.Conditions.{location_ids, function_ids};

use crate::index::Index;
use fd_kinds::{Items, NoMemory};
use fd_proto::{Raw, RawFunction, RawLocation};
use fd_wire::Varints;
use std::alloc::Global;

fn ids_of_locations(alloc: Global, raw: &Raw) -> Result<Varints, NoMemory>
    ensures { IfOk result (λ ids. ids ≡ location_ids raw.now) }
{
    let mut ids = Items::new(alloc);
    for location in raw.locations.as_slice() {
        ids.push(location.id)?;
    }
    Ok(ids)
}

fn ids_of_functions(alloc: Global, raw: &Raw) -> Result<Varints, NoMemory>
    ensures { IfOk result (λ ids. ids ≡ function_ids raw.now) }
{
    let mut ids = Items::new(alloc);
    for function in raw.functions.as_slice() {
        ids.push(function.id)?;
    }
    Ok(ids)
}

fn ids_of_mappings(alloc: Global, raw: &Raw) -> Result<Varints, NoMemory>
    ensures { IfOk result (λ ids. ids ≡ raw.now.mappings) }
{
    let mut ids = Items::new(alloc);
    for id in raw.mappings.as_slice() {
        ids.push(*id)?;
    }
    Ok(ids)
}

/// A profile with its mappings, locations and functions by their ids.
#[derive(Drop)]
pub(crate) struct Catalog {
    pub raw: Raw,
    pub mappings: Index,
    pub locations: Index,
    pub functions: Index,
    ghost mapped: { mappings.ids ≡ raw.mappings },
    ghost located: { locations.ids ≡ location_ids raw },
    ghost named: { functions.ids ≡ function_ids raw },
}

impl Catalog {
    pub(crate) fn of(alloc: Global, raw: Raw) -> Result<Catalog, NoMemory>
        ensures { IfOk result (λ catalog. catalog.raw ≡ raw) }
    {
        let mapping_ids = ids_of_mappings(alloc, &raw)?;
        let location_ids = ids_of_locations(alloc, &raw)?;
        let function_ids = ids_of_functions(alloc, &raw)?;
        let mappings = Index::of(alloc, mapping_ids)?;
        let locations = Index::of(alloc, location_ids)?;
        let functions = Index::of(alloc, function_ids)?;
        Ok(Catalog {
            raw,
            mappings,
            locations,
            functions,
        })
    }

    /// The first location with the id.
    pub(crate) fn location(&self, id: u64) -> Option<&RawLocation>
        ensures { option_copied result ≡ find (λ l. l.id == id) self.now.raw.locations }
    {
        match self.locations.place(id) {
            Some(at) => self.raw.locations.get(at),
            None => None,
        }
    }

    /// The first function with the id.
    pub(crate) fn function(&self, id: u64) -> Option<&RawFunction>
        ensures { option_copied result ≡ find (λ f. f.id == id) self.now.raw.functions }
    {
        match self.functions.place(id) {
            Some(at) => self.raw.functions.get(at),
            None => None,
        }
    }
}
