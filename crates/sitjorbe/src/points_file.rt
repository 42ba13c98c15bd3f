ghost use Rattle.std.specs.Prelude.{◌≡◌, length};
ghost use Rattle.points_reader.specs.Answers.{text_walked, points_answer, written};

use points_reader::PointsAnswer;

// Reads an operator's points file, bytes as they are, onto the first places of the lists: `coordinates` has x and y of each point, `lines` its line from 1, `point_counts` how
// many points each loop has, the outline first, and `loop_marks` three numbers a loop: where the comment that names it begins and ends, counted in bytes behind a byte
// order mark, and the line of its last point where that repeats the first and is left out, or 0. `which` of the faults is told, from 0. Refused, nothing is written.
#[unsafe(no_mangle)]
pub extern "C" fn sitjorbe_read_points(
    text: &[u8],
    which: usize,
    coordinates: &mut [f64],
    lines: &mut [usize],
    point_counts: &mut [usize],
    loop_marks: &mut [usize],
) -> PointsAnswer
    ensures answer { result ≡ points_answer text.now which (length coordinates.old) (length lines.old) (length point_counts.old) (length loop_marks.old) }
    ensures coordinates { coordinates.new ≡ written result.refusal (text_walked text.now which).out.points coordinates.old }
    ensures lines { lines.new ≡ written result.refusal (text_walked text.now which).out.lines lines.old }
    ensures point_counts { point_counts.new ≡ written result.refusal (text_walked text.now which).out.lengths point_counts.old }
    ensures loop_marks { loop_marks.new ≡ written result.refusal (text_walked text.now which).out.marks loop_marks.old }
{
    points_reader::sitjorbe_read_points(text, which, coordinates, lines, point_counts, loop_marks)
}
