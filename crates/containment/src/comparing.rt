// Deciding containment: the part of the call that needs no lists (docs/RULES.md, "Containment").
ghost use Rattle.std.specs.Prelude.{◌↔◌, T};
ghost use Rattle.tables.specs.Pattern.{shape_of};
ghost use Rattle.containment.specs.Mapping.{Contained};
ghost use Rattle.containment.specs.inner.Results.{Mapped};

use crate::choosing;
use tables::{RightPattern, STEPS, StepNo};

// Is a contained in b: does b map into a?
// kept: beside `smallest_mapping`: equality asks twice, and needs no mapping chosen.
pub(crate) fn within(a: RightPattern<'_>, b: RightPattern<'_>) -> bool
    ensures { T result ↔ Contained (shape_of a.entry.table.now) (shape_of b.entry.table.now) }
{
    let fit = mappings::fit_steps(a, b);
    mappings::first_image(a.table, b.table.axis[0], &fit).is_some()
}

// The smallest mapping of b into a: there exactly where a is contained in b.
pub(crate) fn smallest_mapping(a: RightPattern<'_>, b: RightPattern<'_>) -> Option<[StepNo; STEPS]>
    ensures { Mapped a.entry.table.now b.entry.table.now result }
{
    let fit = mappings::fit_steps(a, b);
    let first = mappings::first_image(a.table, b.table.axis[0], &fit)?;
    Some(choosing::choose(a, b, &fit, first))
}
