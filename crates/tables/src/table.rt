// What both kinds of table are: rows that hang on rows, each with a label and an axis. Here a row's number is of neither kind.
ghost use Rattle.std.specs.Prelude.{ℕ, ◌+◌, ◌<◌, ◌≡◌, ◌↔◌, T, length};
ghost use Rattle.tables.specs.Document.{nodes_of, of_lists};
ghost use Rattle.tables.specs.Pattern.{rows_of, shape_of};
ghost use Rattle.tables.specs.Tree.{Hangs, Rows};
ghost use Rattle.tables.specs.inner.Rule.{RowRule};

use crate::{Lists, Pattern};

// A table that can be asked for its rows.
pub(crate) trait Table {
    // the rows
    ghost rows: { Self → Rows };

    // row i stands in the table
    ghost holds: { Self → ℕ → Type 0 };

    fn parent(&self, i: usize) -> usize
        requires { holds self.now i }
        ensures { result ≡ (rows self.now).tree.parent i };

    fn axis(&self, i: usize) -> u8
        requires { holds self.now i }
        ensures { result ≡ (rows self.now).axis i };

    fn label(&self, i: usize) -> u16
        requires { holds self.now i }
        ensures { result ≡ (rows self.now).label i };
}

impl<'a> Table for Lists<'a> {
    ghost rows = { λ d. nodes_of (of_lists d) };

    ghost holds = { λ d i. (i < length d.parents.now) × (i < length d.labels.now) };

    fn parent(&self, i: usize) -> usize {
        usize::from(self.parents[i])
    }

    // every edge of a document is a child edge
    fn axis(&self, _i: usize) -> u8 {
        0
    }

    fn label(&self, i: usize) -> u16 {
        self.labels[i]
    }
}

impl Table for Pattern {
    ghost rows = { λ p. rows_of (shape_of p) };

    ghost holds = { λ p i. i < 64 };

    fn parent(&self, i: usize) -> usize {
        usize::from(self.parent[i].0)
    }

    fn axis(&self, i: usize) -> u8 {
        self.axis[i]
    }

    fn label(&self, i: usize) -> u16 {
        self.label[i]
    }
}

// Does row i hang right, given that every row before it does? Its parent is the row before it or an ancestor of that, so the climb from row i - 1 ends at the
// parent, or else passes it. A row that one climb leaves behind is met by no later climb.
// kept: a loop that climbs, each row found by the one before it: no collection is gone over.
fn hangs<R: Table>(rows: &R, i: usize, root: usize) -> bool
    requires held { (k : ℕ) → k < i + 1 → R.holds rows.now k }
    requires in_bounds { i < (R.rows rows.now).tree.size }
    requires by_index { (k : ℕ) → k < i → Hangs (R.rows rows.now).tree root k }
    ensures { T result ↔ Hangs (R.rows rows.now).tree root i }
{
    let p = rows.parent(i);
    if i == 0 {
        return p == root;
    }
    let mut a = i - 1;
    while p < a {
        a = rows.parent(a);
    }
    a == p
}

// Does row i obey its rule, given that every row before it does?
fn row_right<R: Table>(rows: &R, i: usize, root: usize) -> bool
    requires held { (k : ℕ) → k < i + 1 → R.holds rows.now k }
    requires in_bounds { i < (R.rows rows.now).tree.size }
    requires by_index { (k : ℕ) → k < i → RowRule (R.rows rows.now) root k }
    ensures { T result ↔ RowRule (R.rows rows.now) root i }
{
    rows.axis(i) <= 1 && rows.label(i) != 0 && hangs(rows, i, root)
}

// Does each of the n rows obey its rule, where row 0 hangs on the mark `root`?
// kept: a loop over the number of the row, and the number of rows beside them: a closure handed to `all` would have to say that the rows before its own obeyed,
// and the trait's rows are columns, which only a number finds.
pub(crate) fn rows_right<R: Table>(rows: &R, n: usize, root: usize) -> bool
    requires held { (k : ℕ) → k < n → R.holds rows.now k }
    requires size { n ≡ (R.rows rows.now).tree.size }
    ensures { T result ↔ ((k : ℕ) → k < n → RowRule (R.rows rows.now) root k) }
{
    for i in 0..n {
        if !row_right(rows, i, root) {
            return false;
        }
    }
    true
}
