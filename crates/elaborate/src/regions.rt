//! Regions that nest too deep.

ghost use Rattle.std.specs.Prelude.{◌∷◌, [], map};
ghost use Rattle.elaborate.specs.Regions.{IsDeepRegion};
ghost use Rattle.first_fault.specs.Firsts.{IsFirst};
ghost use Rattle.module_faults.specs.Listed.{seen};

use attr_value::DEPTH_LIMIT;
use first_fault::{Fault, earlier};
use module_faults::Standing;
use value_meaning::NESTING;

/// The fault of a region that stands at nesting 65 or more.
fn region_fault(standing: &Standing<'_>) -> Option<Fault>
    ensures { IsFirst (IsDeepRegion (seen standing.now ∷ [])) result }
{
    match standing {
        Standing::Region { region, nesting } if *nesting as usize > DEPTH_LIMIT => {
            Some(Fault {
                place: region.place,
                code: NESTING,
            })
        }
        _ => None,
    }
}

/// The first region that nests too deep.
pub(crate) fn first_deep_region(standings: &[Standing<'_>]) -> Option<Fault>
    ensures { IsFirst (IsDeepRegion (map seen standings.now)) result }
{
    let mut first = None;
    for standing in standings {
        first = earlier(first, region_fault(standing));
    }
    first
}
