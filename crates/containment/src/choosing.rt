// The smallest mapping of one pattern, B, into another, A, from the table of the steps of B that fit at each step of A (docs/RULES.md, "Containment").
ghost use Rattle.std.specs.Prelude.{Some};
ghost use Rattle.tables.specs.Pattern.{shape_of};
ghost use Rattle.mappings.specs.Fits.{FitsIn, FitTable, Picks};
ghost use Rattle.containment.specs.inner.Results.{Chosen};
ghost use Rattle.containment.specs.Mapping.{BeginsIn};

use tables::{RightPattern, STEPS, StepNo};

// The smallest mapping of b into a, where step 0 goes to `first`.
// kept: each step is found by the image that the loop chose for its parent: so no chain.
// kept: the table of fits beside its two patterns, as it is made for this one call (`smallest_mapping`).
pub(crate) fn choose(
    a: RightPattern<'_>,
    b: RightPattern<'_>,
    fit: &[u64; STEPS],
    first: StepNo,
) -> [StepNo; STEPS]
    requires fit_table { FitTable (shape_of b.table.now) (shape_of a.table.now) fit.now }
    requires picks { Picks (λ j. BeginsIn (shape_of b.table.now) (shape_of a.table.now) j × FitsIn (shape_of b.table.now) (shape_of a.table.now) j 0)
        (Some first) }
    ensures { Chosen (shape_of b.entry.table.now) (shape_of a.entry.table.now) result }
{
    let p = b.table;
    let mut mapping = [StepNo(0); STEPS];
    mapping[0] = first;
    for t in 1..p.count {
        let q = mapping[usize::from(p.parent[t].0)];
        let image = mappings::next_image(a.table, fit, StepNo(t as u8), p.axis[t], q);
        mapping[t] = image.unwrap();
    }
    mapping
}
