ghost use Rattle.std.specs.Prelude.{◌≡◌, IfOk};
ghost use Rattle.fd_api.specs.Routes.{route_of, profiles_route, values_of, names_label, segment, segments_behind, method_of, method_name};

use fd_http::Method;
use fd_kinds::{NoMemory, Text, is_label_name};
use std::alloc::Global;

/// The resources.
#[derive(Debug, PartialEq, Eq, Drop)]
pub enum Route {
    /// Takes a write body.
    Write,
    /// Lists the profile types.
    Types,
    /// Lists what the labels of the series say.
    List(Listing),
    /// Sums the values of the rows of a profile type.
    Sum(Summing),
    /// Tells how far the store is.
    Status,
}

/// What is listed of the series; a selector may tell of which.
#[derive(Debug, PartialEq, Eq, Drop)]
pub enum Listing {
    /// The names of their labels.
    LabelNames,
    /// The values of the label of this name.
    Values(Text),
    /// The series themselves.
    Series,
}

/// How values are summed.
#[derive(Clone, Copy, Debug, PartialEq, Eq)]
pub enum Summing {
    /// For each labels and each timestamp.
    Range,
    /// For each stack.
    Merge,
}

/// The first segment of a path, and those behind it.
fn split_segment(path: &str) -> (&str, &str)
    ensures first { result.0.now ≡ segment path.now }
    ensures behind { result.1.now ≡ segments_behind path.now }
{
    match path.split_once('/') {
        Some((first, behind)) => (first, behind),
        None => (path, ""),
    }
}

/// The values of a label, by the segments `labels`, its name and `values`.
fn values_of(alloc: Global, segments: &str) -> Result<Option<Route>, NoMemory>
    ensures { IfOk result (λ route. route ≡ values_of segments.now) }
{
    let (labels, behind) = split_segment(segments);
    let (name, values) = split_segment(behind);
    if labels == "labels" && is_label_name(name.as_bytes()) && values == "values" {
        let name = Text::of(alloc, name)?;
        return Ok(Some(Route::List(Listing::Values(name))));
    }
    Ok(None)
}

/// The resource below `/profiles/`.
fn profiles_route(alloc: Global, segments: &str) -> Result<Option<Route>, NoMemory>
    ensures { IfOk result (λ route. route ≡ profiles_route segments.now) }
{
    match segments {
        "writeraw" => Ok(Some(Route::Write)),
        "types" => Ok(Some(Route::Types)),
        "labels" => Ok(Some(Route::List(Listing::LabelNames))),
        "series" => Ok(Some(Route::List(Listing::Series))),
        "query_range" => Ok(Some(Route::Sum(Summing::Range))),
        "query" => Ok(Some(Route::Sum(Summing::Merge))),
        _ => values_of(alloc, segments),
    }
}

/// The resource of a path.
pub(crate) fn route_of(alloc: Global, path: &str) -> Result<Option<Route>, NoMemory>
    ensures { IfOk result (λ route. route ≡ route_of path.now) }
{
    if path == "/store/status" {
        return Ok(Some(Route::Status));
    }
    let (before, behind) = split_segment(path);
    let (top, segments) = split_segment(behind);
    if before.is_empty() && top == "profiles" {
        return profiles_route(alloc, segments);
    }
    Ok(None)
}

/// The one method of a resource.
pub(crate) fn method_of(route: &Route) -> Method
    ensures { result ≡ method_of route.now }
{
    match route {
        Route::Write => Method::Post,
        Route::Types | Route::List(_) | Route::Sum(_) | Route::Status => Method::Get,
    }
}

/// A method as a request names it.
pub(crate) fn method_name(method: Method) -> &'static [u8]
    ensures { result.now ≡ method_name method }
{
    match method {
        Method::Get => b"GET",
        Method::Post => b"POST",
    }
}
