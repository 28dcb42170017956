// The numbers of sources.
ghost use Rattle.std.specs.Prelude.{◌≡◌, ◌<◌, ◌^◌, length, SomeIff};
ghost use Rattle.px_flat.specs.Flat.{plan_of};
ghost use Rattle.px_flat.specs.Lookups.{lookups_of};
ghost use Rattle.px_flat.specs.Sources.{Reports};
ghost use Rattle.px_cached.specs.Conditions.{all_sources, place_among, source_number};

use px_flat::Flat;

/// How many numbers of sources there are; None exactly where they are 2^32 or more.
pub(crate) fn source_count(flat: &Flat) -> Option<u32>
    ensures { SomeIff result (all_sources (plan_of flat.now) < 2 ^ 32) (all_sources (plan_of flat.now)) }
{
    let readings = flat.tolerances().len().checked_add(1)?;
    let reports = readings.checked_mul(flat.lookups() as usize)?;
    let count = reports.checked_add(flat.all_cells() as usize)?;
    if count <= u32::MAX as usize {
        Some(count as u32)
    } else {
        None
    }
}

// The place of a tolerance among others; behind them all where there is none, and where it is not among them.
fn place_among(tolerances: &[u32], tolerance: Option<u32>) -> usize
    ensures { result ≡ place_among tolerances.now tolerance }
{
    let Some(tolerance) = tolerance else {
        return tolerances.len();
    };
    let mut at = 0;
    while at < tolerances.len() && tolerances[at] != tolerance {
        at += 1;
    }
    at
}

/// The number of what is reported under a lookup name, as it is read with this tolerance, or with none.
pub(crate) fn report_source(flat: &Flat, lookup: u32, tolerance: Option<u32>) -> u32
    requires lookup { lookup < length (lookups_of (plan_of flat.now)) }
    requires few { all_sources (plan_of flat.now) < 2 ^ 32 }
    ensures number { result ≡ source_number (plan_of flat.now) (Reports lookup tolerance) }
    ensures within { result < all_sources (plan_of flat.now) }
{
    let place = place_among(flat.tolerances(), tolerance) as u32;
    flat.all_cells() + (place * flat.lookups() + lookup)
}
