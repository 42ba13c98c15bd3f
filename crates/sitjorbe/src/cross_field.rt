ghost use Rattle.std.specs.Prelude.{◌≡◌};
ghost use Rattle.outline.specs.Outline.{outline, point};
ghost use Rattle.field_direction.specs.Record.{field_lists, field_record};
ghost use Rattle.field_direction.specs.Direction.{direction_answer};
ghost use Rattle.field_cross.specs.Field.{field_answer};
ghost use Rattle.field_entries.specs.Answers.{grid_lent, field_exit, field_numbers, direction_numbers};

use field_entries::{DirectionAnswer, FieldRecordAnswer};

// The field of the outline, in the lists lent: two floats and a mark a node. Nothing is written on a refusal. The list of blocks is scratch of any
// length, which searches go by as far as it has room; the answer doesn't depend on it.
#[unsafe(no_mangle)]
pub extern "C" fn sitjorbe_field<'a>(
    outer: &'a [f64],
    holes: &'a [f64],
    hole_lengths: &[usize],
    size: f64,
    sweeps: usize,
    values: &mut [f64],
    marks: &mut [u8],
    blocks: &mut [u32],
) -> FieldRecordAnswer
    ensures { field_exit result values.new marks.new
        ≡ field_numbers (field_answer (outline outer.now holes.now hole_lengths.now) size sweeps
        (field_lists values.old marks.old))
        × ((result.refusal ≡ 0 → ⊥) → blocks.new ≡ blocks.old) }
{
    field_entries::sitjorbe_field(
        outer,
        holes,
        hole_lengths,
        size,
        sweeps,
        values,
        marks,
        blocks,
    )
}

// Of the field's four directions at (x, y) the one nearest to the target (tx, ty), which may be any two floats.
#[unsafe(no_mangle)]
pub extern "C" fn sitjorbe_direction(
    xmin: f64,
    ymin: f64,
    h: f64,
    nx: usize,
    ny: usize,
    values: &[f64],
    marks: &[u8],
    x: f64,
    y: f64,
    tx: f64,
    ty: f64,
) -> DirectionAnswer
    ensures { result
        ≡ direction_numbers (direction_answer (field_record (grid_lent xmin ymin h nx ny) values.now marks.now) (point x y)
        (point tx ty)) }
{
    field_entries::sitjorbe_direction(xmin, ymin, h, nx, ny, values, marks, x, y, tx, ty)
}
