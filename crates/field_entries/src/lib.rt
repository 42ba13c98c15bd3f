// The public entries of the field and the direction query: what a host calls, on numbers and slices. None has a `requires`, and of what is lent
// only the lists lent as `&mut` are written.
#![tactic(auto)]

ghost use Rattle.std.specs.Prelude.{◌≡◌};
ghost use Rattle.outline.specs.Outline.{outline, point};
ghost use Rattle.field_direction.specs.Record.{field_lists, field_record};
ghost use Rattle.field_direction.specs.Direction.{direction_answer};
ghost use Rattle.field_cross.specs.Field.{field_answer};
ghost use Rattle.field_entries.specs.Answers.{grid_lent, field_exit, field_numbers, direction_numbers};

use field_direction::{CrossField, Grid};
use outline::{Domain, Point};

// A field record's floats and counts; its values and marks are in the lists lent. `refusal` is the refusal's number, 0 where nothing is refused; on a
// refusal all else is 0.
#[repr(C)]
#[derive(Clone, Copy, Default)]
pub struct FieldRecordAnswer {
    pub refusal: u32,
    pub xmin: f64,
    pub ymin: f64,
    pub h: f64,
    pub nx: usize,
    pub ny: usize,
}

#[repr(C)]
#[derive(Clone, Copy, Default)]
pub struct DirectionAnswer {
    pub refusal: u32,
    pub x: f64,
    pub y: f64,
}

// The field of the outline, in the lists lent: two floats and a mark a node. Nothing is written on a refusal. The list of blocks is scratch of any
// length, which searches go by as far as it has room; the answer doesn't depend on it.
#[unsafe(no_mangle)]
pub extern "C" fn sitjorbe_field<'a>(
    outer: &'a [f64],
    holes: &'a [f64],
    hole_lengths: &[usize],
    size: f64,
    sweeps: usize,
    values: &mut [f64],
    marks: &mut [u8],
    blocks: &mut [u32],
) -> FieldRecordAnswer
    ensures { field_exit result values.new marks.new
        ≡ field_numbers (field_answer (outline outer.now holes.now hole_lengths.now) size sweeps
        (field_lists values.old marks.old))
        × ((result.refusal ≡ 0 → ⊥) → blocks.new ≡ blocks.old) }
{
    let domain = Domain {
        outer,
        holes,
        lens: hole_lengths,
    };
    match field_cross::field(domain, size, sweeps, values, marks, blocks) {
        Err(refusal) => FieldRecordAnswer {
            refusal: u32::from(refusal),
            ..FieldRecordAnswer::default()
        },
        Ok(grid) => FieldRecordAnswer {
            refusal: 0,
            xmin: grid.xmin,
            ymin: grid.ymin,
            h: grid.h,
            nx: grid.nx,
            ny: grid.ny,
        },
    }
}

// Of the field's four directions at (x, y) the one nearest to the target (tx, ty), which may be any two floats.
#[unsafe(no_mangle)]
pub extern "C" fn sitjorbe_direction(
    xmin: f64,
    ymin: f64,
    h: f64,
    nx: usize,
    ny: usize,
    values: &[f64],
    marks: &[u8],
    x: f64,
    y: f64,
    tx: f64,
    ty: f64,
) -> DirectionAnswer
    ensures { result
        ≡ direction_numbers (direction_answer (field_record (grid_lent xmin ymin h nx ny) values.now marks.now) (point x y)
        (point tx ty)) }
{
    let grid = Grid {
        xmin,
        ymin,
        h,
        nx,
        ny,
    };
    let p = Point { x, y };
    let target = Point { x: tx, y: ty };
    match field_direction::query_direction(CrossField { grid, values }, marks, p, target) {
        Err(refusal) => DirectionAnswer {
            refusal: u32::from(refusal),
            ..DirectionAnswer::default()
        },
        Ok(direction) => DirectionAnswer {
            refusal: 0,
            x: direction.x,
            y: direction.y,
        },
    }
}
