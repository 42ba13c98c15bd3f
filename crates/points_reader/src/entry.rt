// The entry: what a host calls, on bytes and lists.
ghost use Rattle.std.specs.Prelude.{◌≡◌, ◌==◌, cond, ◌≤◌, length};
ghost use Rattle.points_reader.specs.Answers.{faulty_answer, read_answer, reader_answer, long_answer, has_room, text_walked, points_answer, written};

use crate::reading::Reader;
use crate::walking::{separator_of, unmarked, walk};

/// What is answered of a text. `refusal` is 31 for a fault of the text, 14 where a list is too short, or 0. Of the faults, of which there are `faults`, the one asked for has its
/// kind, line and column, and `leads` says that no row stands before it. `separator` is the byte between x and y, and `heading` the line of the heading, or 0. `points` and `loops` say
/// how many there are, where nothing is wrong with the text.
#[repr(C)]
#[derive(Clone, Copy)]
pub struct PointsAnswer {
    pub refusal: u32,
    pub fault: u32,
    pub line: usize,
    pub column: usize,
    pub leads: bool,
    pub faults: usize,
    pub separator: u32,
    pub heading: usize,
    pub points: usize,
    pub loops: usize,
}

/// The refusal of a text with a fault.
pub const FAULTY_TEXT: u32 = 31;

/// The refusal of lists that are too short.
pub const SHORT_LISTS: u32 = 14;

/// The fault of a text of more bytes than are read.
pub const TOO_LONG: u32 = 7;

/// More bytes aren't read.
pub const MOST_BYTES: usize = 268_435_456;

#[tactic(auto, unfolding(crate::specs::Answers::long_answer))]
fn long_answer() -> PointsAnswer
    ensures { result ≡ long_answer }
{
    PointsAnswer {
        refusal: FAULTY_TEXT,
        fault: TOO_LONG,
        line: 0,
        column: 0,
        leads: false,
        faults: 1,
        separator: 0,
        heading: 0,
        points: 0,
        loops: 0,
    }
}

#[tactic(auto, unfolding(crate::specs::Answers::faulty_answer))]
fn faulty_answer(reader: &Reader, separator: u8) -> PointsAnswer
    ensures { result ≡ faulty_answer separator reader.now }
{
    PointsAnswer {
        refusal: FAULTY_TEXT,
        fault: reader.fault.kind,
        line: reader.fault.line,
        column: reader.fault.column,
        leads: reader.fault.leads,
        faults: reader.faults,
        separator: u32::from(separator),
        heading: reader.heading,
        points: 0,
        loops: 0,
    }
}

#[tactic(auto, unfolding(crate::specs::Answers::read_answer))]
fn read_answer(reader: &Reader, separator: u8, room: bool) -> PointsAnswer
    ensures { result ≡ read_answer separator room reader.now }
{
    PointsAnswer {
        refusal: if room { 0 } else { SHORT_LISTS },
        fault: 0,
        line: 0,
        column: 0,
        leads: false,
        faults: 0,
        separator: u32::from(separator),
        heading: reader.heading,
        points: reader.points,
        loops: reader.loops,
    }
}

fn reader_answer(reader: &Reader, separator: u8, room: bool) -> PointsAnswer
    ensures { result ≡ reader_answer separator room reader.now }
{
    if reader.faults == 0 {
        read_answer(reader, separator, room)
    } else {
        faulty_answer(reader, separator)
    }
}

// Whether lists of these lengths have room for what is read.
#[tactic(auto, unfolding(crate::specs::Answers::has_room))]
fn has_room(reader: &Reader, points: usize, lines: usize, lengths: usize, marks: usize) -> bool
    ensures { result ≡ has_room reader.now points lines lengths marks }
{
    reader.points <= points / 2
        && reader.points <= lines
        && (reader.loops <= lengths && reader.loops <= marks / 3)
}

// What is answered, with nothing written.
#[tactic(auto, unfolding(crate::specs::Answers::points_answer))]
fn points_answer(
    text: &[u8],
    which: usize,
    points: usize,
    lines: usize,
    lengths: usize,
    marks: usize,
) -> PointsAnswer
    ensures { result ≡ points_answer text.now which points lines lengths marks }
{
    let text = unmarked(text);
    if text.len() > MOST_BYTES {
        return long_answer();
    }
    let separator = separator_of(text);
    let mut reader = Reader::new(which);
    walk(
        text,
        separator,
        &mut reader,
        &mut [],
        &mut [],
        &mut [],
        &mut [],
    );
    let room = has_room(&reader, points, lines, lengths, marks);
    reader_answer(&reader, separator, room)
}

/// Reads an operator's points file, bytes as they are, onto the first places of the lists: `coordinates` has x and y of each point, `lines` its line from 1, `point_counts` how many points each
/// loop has, the outline first, and `loop_marks` three numbers a loop: where the comment that names it begins and ends, counted in bytes behind a byte order mark, and the line of its last
/// point where that repeats the first and is left out, or 0. `which` of the faults is told, from 0. Refused, nothing is written.
#[unsafe(no_mangle)]
pub extern "C" fn sitjorbe_read_points(
    text: &[u8],
    which: usize,
    coordinates: &mut [f64],
    lines: &mut [usize],
    point_counts: &mut [usize],
    loop_marks: &mut [usize],
) -> PointsAnswer
    ensures answer { result ≡ points_answer text.now which (length coordinates.old) (length lines.old) (length point_counts.old) (length loop_marks.old) }
    ensures coordinates { coordinates.new ≡ written result.refusal (text_walked text.now which).out.points coordinates.old }
    ensures lines { lines.new ≡ written result.refusal (text_walked text.now which).out.lines lines.old }
    ensures point_counts { point_counts.new ≡ written result.refusal (text_walked text.now which).out.lengths point_counts.old }
    ensures loop_marks { loop_marks.new ≡ written result.refusal (text_walked text.now which).out.marks loop_marks.old }
{
    let answer = points_answer(
        text,
        which,
        coordinates.len(),
        lines.len(),
        point_counts.len(),
        loop_marks.len(),
    );
    if answer.refusal != 0 {
        return answer;
    }
    let text = unmarked(text);
    let mut reader = Reader::new(which);
    walk(
        text,
        separator_of(text),
        &mut reader,
        coordinates,
        lines,
        point_counts,
        loop_marks,
    );
    answer
}
