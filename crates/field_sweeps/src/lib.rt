// The sweeps of a cross field (src/alt_crossfield.rs): the nodes that are not fixed take their neighbours' average.
#![tactic(auto)]

ghost use Rattle.std.specs.Prelude.{◌≡◌, true, ◌+◌, ◌*◌, ◌≤◌, ◌<◌, length};
ghost use Rattle.field_averages.specs.Places.{NodeIn, RowIn, FieldRoom};
ghost use Rattle.laws.specs.Loop.{for_up};
ghost use Rattle.field_sweeps.specs.Bands.{AreBands};
ghost use Rattle.field_sweeps.specs.Sweeps.{swept, change, set_value, relaxed, sweep_node, sweep_row, sweep_part, four_rows, sweep, sweeps};

use field_averages::{GridNode, GridRow};
use field_direction::{CrossField, Grid};
use outline::{Point, Settings};

// The grid of a field whose values are swept, and a mark for each of its nodes: 0 where the node is not fixed.
#[derive(Clone, Copy)]
pub struct MarkedGrid<'a> {
    pub grid: Grid,
    pub marks: &'a [u8],
}

// ---- one node

// How much a value changes, in sum.
#[tactic(auto, unfolding(crate::specs::Sweeps::change))]
fn change(old: Point, new: Point) -> f64
    ensures { result ≡ change old new }
{
    numbers::abs_f64(new.x - old.x) + numbers::abs_f64(new.y - old.y)
}

// Node id's value is v.
#[tactic(auto, unfolding(crate::specs::Sweeps::set_value))]
pub fn set_value(values: &mut [f64], id: usize, v: Point)
    requires { 2 * id + 1 < length values.old }
    ensures { values.new ≡ set_value values.old id v }
{
    values[2 * id] = v.x;
    values[2 * id + 1] = v.y;
}

// How often four rows are taken at once: a wavefront is three columns long.
fn bands(g: Grid) -> usize
    ensures { AreBands g result }
{
    if g.nx < 3 { 0 } else { g.ny / 4 }
}

impl MarkedGrid<'_> {
    // A node that is not fixed takes its neighbours' average; the answer is whether the sweep is still quiet, and the
    // change is worked out only while it is. A sweep goes on past a node that moves, so the flag is handed on, here and
    // below; contracts hand on values and flag as one.
    #[tactic(auto, using(field_averages::specs::Places::here_in), unfolding(crate::specs::Sweeps::relaxed))]
    fn relax(self, values: &mut [f64], quiet: bool, node: GridNode) -> bool
        requires { NodeIn self.grid node values.old }
        ensures { swept values.new result
            ≡ relaxed self.entry.grid node.j node.i (swept values.old quiet) }
    {
        let field = CrossField {
            grid: self.grid,
            values,
        };
        let v = field_averages::average(field, node);
        let still = quiet
            && !(Settings::QUIET <= change(outline_loops::point_at(values, node.id), v));
        set_value(values, node.id, v);
        still
    }

    #[tactic(auto, unfolding(crate::specs::Sweeps::sweep_node))]
    fn sweep_node(self, values: &mut [f64], quiet: bool, node: GridNode) -> bool
        requires node { NodeIn self.grid node values.old }
        requires id_in_bounds { node.id < length self.marks.now }
        ensures { swept values.new result
            ≡ sweep_node self.entry.grid self.entry.marks.now node.j node.i (swept values.old quiet) }
    {
        if self.marks[node.id] == 0 {
            self.relax(values, quiet, node)
        } else {
            quiet
        }
    }

    // ---- rows, and sweeps

    // LIMITS.md, 3: a loop, as are the three below, whose bodies change the values too.
    fn sweep_row(self, values: &mut [f64], quiet: bool, row: GridRow) -> bool
        requires row { RowIn self.grid row values.old }
        requires nx_in_bounds { row.first + self.grid.nx ≤ length self.marks.now }
        ensures { swept values.new result
            ≡ sweep_row self.entry.grid self.entry.marks.now row.j (swept values.old quiet) }
    {
        let mut still = quiet;
        for i in 0..self.grid.nx {
            still = self.sweep_node(values, still, row.node(i));
        }
        still
    }

    // The nodes of a row from column `from` on, before column `to`.
    fn sweep_part(
        self,
        values: &mut [f64],
        quiet: bool,
        row: GridRow,
        from: usize,
        to: usize,
    ) -> bool
        requires row { RowIn self.grid row values.old }
        requires columns { (from ≤ to) × (to ≤ self.grid.nx) }
        requires nx_in_bounds { row.first + self.grid.nx ≤ length self.marks.now }
        ensures { swept values.new result
            ≡ sweep_part self.entry.grid self.entry.marks.now row.j from to (swept values.old quiet) }
    {
        let mut still = quiet;
        for i in 0..to - from {
            still = self.sweep_node(values, still, row.node(from + i));
        }
        still
    }

    // A row and the three above it, each a column behind the one below, so that four roots are under way at once.
    fn sweep_four_rows(self, values: &mut [f64], quiet: bool, row: GridRow) -> bool
        requires row { RowIn self.grid row values.old }
        requires columns { 3 ≤ self.grid.nx }
        requires rows { (row.j + 3 < self.grid.ny)
            × (row.first + 4 * self.grid.nx ≤ length self.marks.now) }
        ensures { swept values.new result
            ≡ four_rows self.entry.grid self.entry.marks.now row.j (swept values.old quiet) }
    {
        let nx = self.grid.nx;
        let [b, c, d] = [row.above(nx, 1), row.above(nx, 2), row.above(nx, 3)];
        let mut still = self.sweep_part(values, quiet, row, 0, 3);
        still = self.sweep_part(values, still, b, 0, 2);
        still = self.sweep_part(values, still, c, 0, 1);
        for i in 0..nx - 3 {
            still = self.sweep_node(values, still, row.node(i + 3));
            still = self.sweep_node(values, still, b.node(i + 2));
            still = self.sweep_node(values, still, c.node(i + 1));
            still = self.sweep_node(values, still, d.node(i));
        }
        still = self.sweep_part(values, still, b, nx - 1, nx);
        still = self.sweep_part(values, still, c, nx - 2, nx);
        self.sweep_part(values, still, d, nx - 3, nx)
    }

    // The first rows of a sweep, four at a time.
    fn sweep_bands(self, values: &mut [f64], bands: usize) -> bool
        requires room { FieldRoom self.grid.nx self.grid.ny (length values.old) (length self.marks.now) }
        requires bands { AreBands self.grid bands }
        ensures { swept values.new result
            ≡ for_up (4 * bands) (sweep_row self.entry.grid self.entry.marks.now) (swept values.old true) }
    {
        let nx = self.grid.nx;
        let mut quiet = true;
        for k in 0..bands {
            let row = GridRow {
                j: 4 * k,
                first: 4 * k * nx,
            };
            quiet = self.sweep_four_rows(values, quiet, row);
        }
        quiet
    }

    // One sweep; the answer is whether it was quiet. Rows that no four hold are taken one by one.
    fn sweep(self, values: &mut [f64]) -> bool
        requires { FieldRoom self.grid.nx self.grid.ny (length values.old) (length self.marks.now) }
        ensures { swept values.new result
            ≡ sweep self.entry.grid self.entry.marks.now values.old }
    {
        let Grid { nx, ny, .. } = self.grid;
        let bands = bands(self.grid);
        let mut quiet = self.sweep_bands(values, bands);
        for k in 0..ny - 4 * bands {
            let row = GridRow {
                j: 4 * bands + k,
                first: (4 * bands + k) * nx,
            };
            quiet = self.sweep_row(values, quiet, row);
        }
        quiet
    }

    // At most n sweeps: a quiet one is the last.
    pub fn sweeps(self, n: usize, values: &mut [f64])
        requires { FieldRoom self.grid.nx self.grid.ny (length values.old) (length self.marks.now) }
        ensures { values.new ≡ sweeps n self.entry.grid self.entry.marks.now values.old }
    {
        for _ in 0..n {
            if self.sweep(values) {
                return;
            }
        }
    }
}
