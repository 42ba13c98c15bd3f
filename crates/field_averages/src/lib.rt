// The average of a node's neighbours in the grid of a cross field (src/alt_crossfield.rs), normalised.
#![tactic(auto)]

ghost use Rattle.std.specs.Prelude.{◌≡◌, true, ◌+◌, ◌*◌, ◌<◌, ◌^◌, length};
ghost use Rattle.outline.specs.Outline.{point_at};
ghost use Rattle.field_averages.specs.Places.{NodeIn, row_node, row_above};
ghost use Rattle.field_averages.specs.Average.{plus_if, neighbour_sum, neighbour_count, normalised, divided, average};

use field_direction::{CrossField, Grid};
use outline::{Point, Settings};

// Node (i, j) of a grid, and its number.
#[derive(Clone, Copy)]
pub struct GridNode {
    pub i: usize,
    pub j: usize,
    pub id: usize,
}

// Row j of a grid, and the number of its first node.
#[derive(Clone, Copy)]
pub struct GridRow {
    pub j: usize,
    pub first: usize,
}

impl GridRow {
    // Its node in column i.
    pub fn node(self, i: usize) -> GridNode
        requires { self.first + i < 2 ^ 64 }
        ensures { result ≡ row_node self i }
    {
        GridNode {
            i,
            j: self.j,
            id: self.first + i,
        }
    }

    // The row k above it, in a grid of rows of nx nodes.
    pub fn above(self, nx: usize, k: usize) -> GridRow
        requires { (self.j + k < 2 ^ 64) × (self.first + k * nx < 2 ^ 64) }
        ensures { result ≡ row_above self nx k }
    {
        GridRow {
            j: self.j + k,
            first: self.first + k * nx,
        }
    }
}

// The sum with the value of node k.
#[tactic(auto, unfolding(crate::specs::Average::plus_if))]
fn plus_node(values: &[f64], k: usize, sum: Point) -> Point
    requires { 2 * k + 1 < length values.now }
    ensures { result ≡ plus_if true (point_at values.now k) sum }
{
    let v = outline_loops::point_at(values, k);
    Point {
        x: sum.x + v.x,
        y: sum.y + v.y,
    }
}

// The sum of the neighbours' values: left, right, below, above.
#[tactic(auto, using(crate::specs::Places::here_in, crate::specs::Places::left_in, crate::specs::Places::right_in, crate::specs::Places::under_in))]
fn neighbour_sum(field: CrossField<'_>, node: GridNode) -> Point
    requires { NodeIn field.grid node field.values.now }
    ensures { result ≡ neighbour_sum field.entry.grid field.entry.values.now node.j node.i }
{
    let GridNode { i, j, id } = node;
    let nx = field.grid.nx;
    let mut sum = Point { x: 0.0, y: 0.0 };
    if 0 < i {
        sum = plus_node(field.values, id - 1, sum);
    }
    if i + 1 < nx {
        sum = plus_node(field.values, id + 1, sum);
    }
    if 0 < j {
        sum = plus_node(field.values, id - nx, sum);
    }
    if j + 1 < field.grid.ny {
        sum = plus_node(field.values, id + nx, sum);
    }
    sum
}

#[tactic(auto, using(crate::proofs::Bits::bool_number), unfolding(crate::specs::Average::neighbour_count))]
fn neighbour_count(g: Grid, node: GridNode) -> u32
    requires { (node.i < g.nx) × (node.j < g.ny) }
    ensures { result ≡ neighbour_count g node.j node.i }
{
    u32::from(0 < node.i)
        + u32::from(node.i + 1 < g.nx)
        + u32::from(0 < node.j)
        + u32::from(node.j + 1 < g.ny)
}

// Divided by its norm where that is above 1e-12, else (1, 0).
#[tactic(auto, unfolding(crate::specs::Average::normalised))]
fn normalised(v: Point) -> Point
    ensures { result ≡ normalised v }
{
    let n = geometry::norm(v.x, v.y);
    if Settings::TOLERANCE < n {
        Point {
            x: v.x / n,
            y: v.y / n,
        }
    } else {
        Point { x: 1.0, y: 0.0 }
    }
}

// The sum divided by the count. By four or two, as at nearly all nodes and the corners, it is the product with a quarter or a half.
fn divided(sum: Point, count: u32) -> Point
    ensures { result ≡ divided sum count }
{
    if count == 4 {
        return Point {
            x: sum.x * 0.25,
            y: sum.y * 0.25,
        };
    }
    if count == 2 {
        return Point {
            x: sum.x * 0.5,
            y: sum.y * 0.5,
        };
    }
    let n = count as f64;
    Point {
        x: sum.x / n,
        y: sum.y / n,
    }
}

// The neighbours' average, normalised, at a node.
#[tactic(auto, unfolding(crate::specs::Average::average))]
pub fn average(field: CrossField<'_>, node: GridNode) -> Point
    requires { NodeIn field.grid node field.values.now }
    ensures { result ≡ average field.entry.grid field.entry.values.now node.j node.i }
{
    let sum = neighbour_sum(field, node);
    normalised(divided(sum, neighbour_count(field.grid, node)))
}
