// The cross field of src/alt_crossfield.rs: grid, seeds, marks, and the field whole.
#![tactic(auto)]

ghost use Rattle.std.specs.Prelude.{◌≡◌, false, ◌+◌, ◌≤◌, ◌<◌, length};
ghost use Rattle.numbers.specs.Float.{◌⊘◌};
ghost use Rattle.numbers.specs.Whole.{ceil_count};
ghost use Rattle.outline.specs.Outline.{outline_of, misshapen};
ghost use Rattle.outline.specs.Queries.{nearest_segment};
ghost use Rattle.outline.specs.Refusals.{refused, numbered};
ghost use Rattle.outline_blocks.specs.Blocks.{Drawn};
ghost use Rattle.field_direction.specs.Record.{most_field_nodes, grid_nodes, field_lists, field_record};
ghost use Rattle.field_averages.specs.Places.{NodeIn, RowIn, NodeMark, RowMarks, FieldRoom};
ghost use Rattle.field_cross.specs.Grid.{no_bounds, widened, loop_bounds, bounds, grid_count, too_many_nodes, spacing, grid_of, size_refusal};
ghost use Rattle.field_cross.specs.Grid.{bounds_refusal, sweeps_refusal};
ghost use Rattle.field_cross.specs.Seeds.{grid_point, seed, is_fixed, seed_node, seed_row, seeded};
ghost use Rattle.field_cross.specs.Field.{places_refusal, drawn_refusal, refusal_for, field_refusal, field_of, field_result, field_answer, FieldDraws};

use field_averages::{GridNode, GridRow};
use field_direction::Grid;
use field_sweeps::MarkedGrid;
use outline::{Domain, Near, Point, Refusal, Settings};
use outline_blocks::DrawnOutline;

// `(xmin, xmax, ymin, ymax)`
// The fields are those of `outline_blocks::Extent`; but the field's definitions are of this type, and rest on no
// block.
#[derive(Clone, Copy)]
pub struct Bounds {
    pub xmin: f64,
    pub xmax: f64,
    pub ymin: f64,
    pub ymax: f64,
}

// What seeds are made of: the outline with its blocks, and the grid.
#[derive(Clone, Copy)]
struct Seeding<'a> {
    outline: DrawnOutline<'a>,
    grid: Grid,
}

// ---- the bounding box, over all loops

impl Bounds {
    // Of no points.
    fn none() -> Bounds
        ensures { result ≡ no_bounds }
    {
        Bounds {
            xmin: 1.0 / 0.0,
            xmax: -1.0 / 0.0,
            ymin: 1.0 / 0.0,
            ymax: -1.0 / 0.0,
        }
    }

    #[tactic(auto, unfolding(crate::specs::Grid::widened))]
    fn widened(self, p: Point) -> Bounds
        ensures { result ≡ widened p self }
    {
        Bounds {
            xmin: numbers::min_f64(self.xmin, p.x),
            xmax: numbers::max_f64(self.xmax, p.x),
            ymin: numbers::min_f64(self.ymin, p.y),
            ymax: numbers::max_f64(self.ymax, p.y),
        }
    }

    // Widened by each point of a loop.
    fn around(self, s: &[f64]) -> Bounds
        ensures { result ≡ loop_bounds s.now self }
    {
        (0..s.len() / 2).fold(self, |wide, i| wide.widened(outline_loops::point_at(s, i)))
    }
}

pub fn bounds_of(domain: Domain<'_>) -> Bounds
    requires { misshapen (outline_of domain) ≡ false }
    ensures { result ≡ bounds (outline_of domain.entry) }
{
    outline_loops::loops_of(domain).fold(Bounds::none(), |wide, each| wide.around(each.points))
}

// ---- the grid

// max(ceil(width / h), 2) + 3
#[tactic(auto, unfolding(crate::specs::Grid::grid_count))]
fn grid_count(width: f64, h: f64) -> usize
    requires { ceil_count (width ⊘ h) ≤ most_field_nodes }
    ensures value { result ≡ grid_count width h }
    ensures upper_bound { result ≤ most_field_nodes + 3 }
{
    let cells = numbers::ceil_count(width / h) as usize;
    cells.max(2) + 3
}

// Whether a grid of this spacing has more than 250,000 nodes. A side of more than that has too many by itself, so that no product overflows.
fn too_many_nodes(width: f64, height: f64, h: f64) -> bool
    ensures { result ≡ too_many_nodes width height h }
{
    Settings::MOST_FIELD_NODES < numbers::ceil_count(width / h) as usize
        || Settings::MOST_FIELD_NODES < numbers::ceil_count(height / h) as usize
        || Settings::MOST_FIELD_NODES < grid_count(width, h) * grid_count(height, h)
}

// h, grown by 1.25 while the grid has more than 250,000 nodes.
fn spacing(width: f64, height: f64, h: f64) -> f64
    ensures { result ≡ spacing width height h }
{
    let mut grown = h;
    for _ in 0..Settings::MOST_GROWTHS {
        if !too_many_nodes(width, height, grown) {
            return grown;
        }
        grown *= Settings::GROWTH;
    }
    grown
}

#[tactic(auto, using(crate::proofs::Counts::few_columns, crate::proofs::Counts::few_rows), unfolding(crate::specs::Grid::grid_of))]
pub fn grid_of(b: Bounds, size: f64) -> Grid
    requires { grid_nodes (grid_of b size) ≤ most_field_nodes }
    ensures { result ≡ grid_of b size }
{
    let width = b.xmax - b.xmin;
    let height = b.ymax - b.ymin;
    let h = spacing(width, height, 0.5 * size);
    let nx = grid_count(width, h);
    let ny = grid_count(height, h);
    Grid {
        xmin: b.xmin - h,
        ymin: b.ymin - h,
        h,
        nx,
        ny,
    }
}

// ---- refusals 5 to 9

// 5 and 6.
#[tactic(auto, unfolding(crate::specs::Grid::size_refusal))]
fn check_size(size: f64) -> Result<(), Refusal>
    ensures { refused result ≡ size_refusal size }
{
    if !numbers::is_finite_f64(size) || size <= 0.0 {
        return Err(Refusal::NoSize);
    }
    if size < Settings::LEAST_SIZE || Settings::MOST_SIZE < size {
        return Err(Refusal::SizeOutOfRange);
    }
    Ok(())
}

// 7.
#[tactic(auto, unfolding(crate::specs::Grid::bounds_refusal))]
fn check_bounds(b: Bounds) -> Result<(), Refusal>
    ensures { refused result ≡ bounds_refusal b }
{
    if b.xmax <= b.xmin || b.ymax <= b.ymin {
        return Err(Refusal::Flat);
    }
    Ok(())
}

// 8.
#[tactic(auto, unfolding(crate::specs::Grid::sweeps_refusal))]
fn check_sweeps(sweeps: usize) -> Result<(), Refusal>
    ensures { refused result ≡ sweeps_refusal sweeps }
{
    if Settings::MOST_SWEEPS < sweeps {
        return Err(Refusal::TooManySweeps);
    }
    Ok(())
}

// 9.
#[tactic(auto, unfolding(crate::specs::Field::places_refusal))]
fn check_places(g: Grid, places: usize) -> Result<(), Refusal>
    requires { grid_nodes g ≤ most_field_nodes }
    ensures { refused result ≡ places_refusal g places }
{
    if places < g.nx * g.ny {
        return Err(Refusal::FieldNeedsSpace);
    }
    Ok(())
}

// ---- seeds and marks

// Where a node stands.
#[tactic(auto, unfolding(crate::specs::Seeds::grid_point))]
fn grid_point(g: Grid, node: GridNode) -> Point
    requires { (node.i < 4294967296) × (node.j < 4294967296) }
    ensures { result ≡ grid_point g node.i node.j }
{
    Point {
        x: g.xmin + numbers::to_f64(node.i) * g.h,
        y: g.ymin + numbers::to_f64(node.j) * g.h,
    }
}

// Four times the angle of a tangent.
#[tactic(auto, unfolding(crate::specs::Seeds::seed))]
fn seed(t: Point) -> Point
    ensures { result ≡ seed t }
{
    let p = t.x * t.x - t.y * t.y;
    let q = 2.0 * (t.x * t.y);
    Point {
        x: p * p - q * q,
        y: 2.0 * (p * q),
    }
}

impl Seeding<'_> {
    // Whether a node at p is fixed: inside, and its nearest segment within 1.5 spacings. The distance is known, so it is asked first.
    #[tactic(auto, unfolding(crate::specs::Seeds::is_fixed))]
    fn is_fixed(&self, p: Point, found: Near) -> bool
        ensures { result ≡ is_fixed (outline_of self.now.outline.domain) self.now.grid.h p found }
    {
        found.distance <= Settings::BAND * self.grid.h && self.outline.contains_point(p)
    }

    // One search serves a node's value and its mark. The answer is the nearest segment, which is a guess of the next node's.
    #[tactic(auto, using(field_averages::specs::Places::here_in, field_averages::proofs::Bits::bool_number), unfolding(crate::specs::Seeds::seed_node))]
    fn seed_node(&self, values: &mut [f64], marks: &mut [u8], node: GridNode, guess: Near) -> Near
        requires node { NodeIn self.now.grid node values.old }
        requires node_mark { NodeMark self.now.grid.nx self.now.grid.ny node.id (length marks.old) }
        ensures marks_after { field_lists values.new marks.new
            ≡ seed_node (outline_of self.now.outline.domain) self.now.grid node.j node.i
            (field_lists values.old marks.old) }
        ensures value { result
            ≡ nearest_segment (outline_of self.now.outline.domain) (grid_point self.now.grid node.i node.j) }
    {
        let p = grid_point(self.grid, node);
        let found = outline_nearest::nearest_segment(self.outline, p, guess);
        let v = seed(geometry::tangent(found.a, found.b));
        let mark = u8::from(self.is_fixed(p, found));
        field_sweeps::set_value(values, node.id, v);
        marks[node.id] = mark;
        found
    }

    // The first node's guess is the outer loop's first segment, for want of a better.
    fn seed_row(&self, values: &mut [f64], marks: &mut [u8], row: GridRow)
        requires row { RowIn self.now.grid row values.old }
        requires row_marks { RowMarks self.now.grid.nx self.now.grid.ny row.first (length marks.old) }
        ensures { field_lists values.new marks.new
            ≡ seed_row (outline_of self.now.outline.domain) self.now.grid row.j
            (field_lists values.old marks.old) }
    {
        let mut near = Near {
            a: outline_loops::point_at(self.outline.domain.outer, 0),
            b: outline_loops::point_at(self.outline.domain.outer, 1),
            distance: 0.0,
            loop_index: 0,
            segment_index: 0,
        };
        for i in 0..self.grid.nx {
            near = self.seed_node(values, marks, row.node(i), near);
        }
    }

    // Every node's value and mark.
    fn seed_all(&self, values: &mut [f64], marks: &mut [u8])
        requires field_room { FieldRoom self.now.grid.nx self.now.grid.ny (length values.old) (length marks.old) }
        requires nx_le_most_field_nodes { (self.now.grid.nx ≤ most_field_nodes)
            × (self.now.grid.ny ≤ most_field_nodes) }
        ensures { field_lists values.new marks.new
            ≡ seeded (outline_of self.now.outline.domain) self.now.grid
            (field_lists values.old marks.old) }
    {
        let Grid { nx, ny, .. } = self.grid;
        for j in 0..ny {
            self.seed_row(values, marks, GridRow { j, first: j * nx });
        }
    }
}

// ---- the field

// Refusals 1 to 9.
pub fn check_field(
    domain: Domain<'_>,
    size: f64,
    sweeps: usize,
    places: usize,
) -> Result<(), Refusal>
    ensures { refused result ≡ refusal_for (outline_of domain.entry) size sweeps places }
{
    outline_loops::check_outline(domain)?;
    check_size(size)?;
    let b = bounds_of(domain);
    check_bounds(b)?;
    check_sweeps(sweeps)?;
    check_places(grid_of(b, size), places)
}

// Refusals 1 to 7: neither 8 nor 9, since no sweeps are asked for, and no field has more nodes.
pub fn check_drawn(domain: Domain<'_>, size: f64) -> Result<(), Refusal>
    ensures { refused result ≡ drawn_refusal (outline_of domain.entry) size }
{
    check_field(domain, size, 0, Settings::MOST_FIELD_NODES)
}

// The field where none of 1 to 9 refuses it, in the lists lent; and the outline's blocks.
pub fn make_field(
    domain: Domain<'_>,
    size: f64,
    limit: usize,
    values: &mut [f64],
    marks: &mut [u8],
    blocks: &mut [u32],
) -> Grid
    requires { field_refusal (outline_of domain) size limit (field_lists values.old marks.old) ≡ 0 }
    ensures { field_record result values.new marks.new
        ≡ field_of (outline_of domain.entry) size limit
        (field_lists values.old marks.old)
        × Drawn (outline_of domain.entry) blocks.new }
{
    let grid = grid_of(bounds_of(domain), size);
    outline_blocks::file(domain, blocks);
    let outline = DrawnOutline { domain, blocks };
    let seeding = Seeding { outline, grid };
    seeding.seed_all(values, marks);
    MarkedGrid { grid, marks }.sweeps(limit, values);
    grid
}

// The field of an outline, in the lists lent; on a refusal nothing is written. The list of blocks may have any length, and has the outline's blocks after.
#[tactic(auto, using(outline::proofs::Refused::refusal_some, outline::proofs::RefusalLaws::answer_refused), unfolding(crate::specs::Field::field_answer, crate::specs::Field::field_refusal))]
pub fn field(
    domain: Domain<'_>,
    size: f64,
    limit: usize,
    values: &mut [f64],
    marks: &mut [u8],
    blocks: &mut [u32],
) -> Result<Grid, Refusal>
    ensures marks_after { field_result (numbered result) values.new marks.new
        ≡ field_answer (outline_of domain.entry) size limit
        (field_lists values.old marks.old) }
    ensures field_draws { FieldDraws (outline_of domain.entry) (numbered result) blocks.old blocks.new }
{
    let places = (values.len() / 2).min(marks.len());
    check_field(domain, size, limit, places)?;
    Ok(make_field(domain, size, limit, values, marks, blocks))
}
