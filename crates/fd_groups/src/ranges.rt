ghost use Rattle.std.specs.Prelude.{◌≡◌, List, [], ◌∷◌, ◌++◌, map, OnOk, OnErr, IfOk};
ghost use Rattle.fd_kinds.specs.declared.row.Row.{Row};
ghost use Rattle.fd_kinds.specs.Meaning.{ranges_of};
ghost use Rattle.std.specs.Ordering.{int_cmp};
ghost use Rattle.fd_groups.specs.Additions.{Adds, FindsSame};
ghost use Rattle.fd_groups.specs.Groups.{ArePoints, AreRanges};

use crate::sums::added;
use fd_kinds::{Items, Labels, NoMemory, OneRange, Point, Points, RangeSeries, Share};
use std::alloc::Global;
use std::collections::BTreeMap;

/// The sums at each time, for each labels.
pub type Ranges = BTreeMap<Labels, BTreeMap<i64, i128>>;

/// Adds the value to the sum at the time.
fn add_at_time(points: &mut BTreeMap<i64, i128>, timestamp: i64, value: i64) -> Result<(), NoMemory>
    ensures ok { OnOk result (Adds int_cmp timestamp value points.old points.new) }
    ensures err { OnErr result (FindsSame int_cmp points.old points.new) }
{
    if !added(points, &timestamp, value)? {
        points.insert(timestamp, i128::from(value))?;
    }
    Ok(())
}

/// The points of one row with this timestamp and value.
fn one_point(alloc: Global, timestamp: i64, value: i64) -> Result<BTreeMap<i64, i128>, NoMemory>
    ensures { IfOk result (λ points.
        (row : Row) → row.timestamp ≡ timestamp → row.value ≡ value → ArePoints points (row ∷ [])) }
{
    let mut points = BTreeMap::new(alloc);
    add_at_time(&mut points, timestamp, value)?;
    Ok(points)
}

/// Adds the value of a row with this timestamp to the points of its labels.
pub fn add_to_range(
    alloc: Global,
    ranges: &mut Ranges,
    labels: &Labels,
    timestamp: i64,
    value: i64,
) -> Result<(), NoMemory>
    ensures ok { OnOk result (
        (rows : List Row) → (row : Row)
        → row.labels ≡ labels.now → row.timestamp ≡ timestamp → row.value ≡ value
        → AreRanges ranges.old rows → AreRanges ranges.new (rows ++ row ∷ [])) }
    ensures err { OnErr result (
        (rows : List Row) → AreRanges ranges.old rows → AreRanges ranges.new rows) }
{
    match ranges.get_mut(labels) {
        Some(points) => add_at_time(points, timestamp, value),
        None => {
            ranges.insert(labels.share()?, one_point(alloc, timestamp, value)?)?;
            Ok(())
        }
    }
}

/// The points by rising time.
fn listed_points(alloc: Global, points: BTreeMap<i64, i128>) -> Result<Points, NoMemory>
    ensures { IfOk result (λ list.
        list ≡ map (λ e. record { timestamp = e.0; value = e.1 }) points.entries) }
{
    let mut list = Items::new(alloc);
    for (timestamp, value) in points {
        list.push(Point { timestamp, value })?;
    }
    Ok(list)
}

/// The ranges in the order of their labels.
pub fn listed_ranges(alloc: Global, ranges: Ranges) -> Result<RangeSeries, NoMemory>
    ensures { IfOk result (λ list.
        (rows : List Row) → AreRanges ranges rows → list ≡ ranges_of rows) }
{
    let mut list = Items::new(alloc);
    for (labels, points) in ranges {
        list.push(OneRange {
            labels,
            points: listed_points(alloc, points)?,
        })?;
    }
    Ok(list)
}
