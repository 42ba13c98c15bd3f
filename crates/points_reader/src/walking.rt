// A text, line by line: what it gives is written on lists, as far as they reach.
ghost use Rattle.std.specs.Prelude.{not, ◌||◌, ◌==◌, ◌&&◌, ◌≡◌, ◌+◌, ◌-◌, ◌*◌, ◌^◌, ◌<◌, ◌≤◌, length, slice_set, drop};
ghost use Rattle.points_reader.specs.Reading.{loop_ended, loop_given, line_read, line_given};
ghost use Rattle.points_reader.specs.Walking.{is_end, is_second, is_marked, unmarked, in_comment, has_semicolons, has_tabs, separator_of, walked};
ghost use Rattle.points_text.specs.Words.{is_tabbed};
ghost use Rattle.points_text.specs.Lines.{row_of};
ghost use Rattle.points_reader.specs.Counts.{Counted, IsNew};
ghost use Rattle.points_reader.specs.Laid.{laid};
ghost use Rattle.points_reader.specs.Puts.{put_point, put_line, put_length, put_marks};

use crate::reading::{Ended, Reader, Spot};

// ---- lines

fn is_end(b: u8) -> bool
    ensures { result ≡ is_end b }
{
    b == b'\n' || b == b'\r'
}

// Whether a line feed stands at place `i` right after a carriage return.
fn is_second(text: &[u8], i: usize) -> bool
    requires { i < length text.now }
    ensures { result ≡ is_second text.now i }
{
    text[i] == b'\n' && (0 < i && text[i - 1] == b'\r')
}

fn is_marked(text: &[u8]) -> bool
    ensures { result ≡ is_marked text.now }
{
    3 <= text.len() && text[0] == 0xef && (text[1] == 0xbb && text[2] == 0xbf)
}

/// The text without a byte order mark.
pub fn unmarked(text: &[u8]) -> &[u8]
    ensures { result.now ≡ unmarked text.now }
{
    if is_marked(text) { &text[3..] } else { text }
}

// Whether a comment goes on behind byte `b`.
fn in_comment(b: u8, comment: bool) -> bool
    ensures { result ≡ in_comment b comment }
{
    !is_end(b) && (comment || b == b'#')
}

// Whether byte `b` is a semicolon outside a comment.
fn separates(b: u8, comment: bool) -> bool
    ensures { result ≡ (b == 59 && not comment) }
{
    b == b';' && !comment
}

// Whether a semicolon stands outside a comment.
fn has_semicolons(text: &[u8]) -> bool
    ensures { result ≡ has_semicolons text.now }
{
    let mut comment = false;
    for i in 0..text.len() {
        if separates(text[i], comment) {
            return true;
        }
        comment = in_comment(text[i], comment);
    }
    false
}

// Whether words of a line have a tab between, and no comma beside it; or any did before, as `found` says.
fn is_tabbed(line: &[u8], found: bool) -> bool
    ensures { result ≡ (found || is_tabbed (row_of line.now)) }
{
    found || points_text::is_tabbed(&line[..points_text::comment_at(line)])
}

// Whether that is so in any line.
fn has_tabs(text: &[u8]) -> bool
    ensures { result ≡ has_tabs text.now }
{
    let mut from = 0;
    let mut found = false;
    for i in 0..text.len() {
        if !is_end(text[i]) {
            continue;
        }
        found = is_tabbed(&text[from..i], found);
        from = i + 1;
    }
    is_tabbed(&text[from..], found)
}

/// The byte between x and y: a semicolon where one stands outside a comment, else a tab where words of a line have one between, else a comma.
#[tactic(auto, unfolding(crate::specs::Walking::separator_of))]
pub fn separator_of(text: &[u8]) -> u8
    ensures { result ≡ separator_of text.now }
{
    if has_semicolons(text) {
        b';'
    } else if has_tabs(text) {
        b'\t'
    } else {
        b','
    }
}

// ---- lists

// Writes an item where the list has the place.
fn put<T: Copy>(list: &mut [T], at: usize, item: T)
    ensures { list.new ≡ slice_set list.old at item }
{
    if at < list.len() {
        list[at] = item;
    }
}

fn put_point(point: &Option<Spot>, at: usize, points: &mut [f64], lines: &mut [usize])
    requires { at < 2 ^ 32 }
    ensures points { points.new ≡ put_point point.now at points.old }
    ensures lines { lines.new ≡ put_line point.now at lines.old }
{
    if let Some(spot) = point {
        put(points, 2 * at, spot.x);
        put(points, 2 * at + 1, spot.y);
        put(lines, at, spot.line);
    }
}

fn put_loop(ended: &Option<Ended>, at: usize, lengths: &mut [usize], marks: &mut [usize])
    requires { at < 2 ^ 32 }
    ensures lengths { lengths.new ≡ put_length ended.now at lengths.old }
    ensures marks { marks.new ≡ put_marks ended.now at marks.old }
{
    if let Some(ended) = ended {
        put(lengths, at, ended.length);
        put(marks, 3 * at, ended.from);
        put(marks, 3 * at + 1, ended.to);
        put(marks, 3 * at + 2, ended.left);
    }
}

// ---- the walk

// Reads a line and writes what it gives.
fn read_line(
    reader: &mut Reader,
    line: &[u8],
    at: usize,
    separator: u8,
    points: &mut [f64],
    lines: &mut [usize],
    lengths: &mut [usize],
    marks: &mut [usize],
)
    requires counted { Counted reader.old × (reader.old.line < 2 ^ 32 - 1) }
    requires fits { at + length line.now < usize.MAX }
    ensures reader { reader.new ≡ line_read separator line.now at reader.old }
    ensures points { points.new ≡ put_point (line_given separator line.now reader.old).point reader.old.points points.old }
    ensures lines { lines.new ≡ put_line (line_given separator line.now reader.old).point reader.old.points lines.old }
    ensures lengths { lengths.new ≡ put_length (line_given separator line.now reader.old).ended reader.old.loops lengths.old }
    ensures marks { marks.new ≡ put_marks (line_given separator line.now reader.old).ended reader.old.loops marks.old }
{
    let (at_point, at_loop) = (reader.points, reader.loops);
    let given = reader.read(line, at, separator);
    put_point(&given.point, at_point, points, lines);
    put_loop(&given.ended, at_loop, lengths, marks);
}

// Ends the last loop and writes what that gives.
fn end_loop(
    reader: &mut Reader,
    points: &mut [f64],
    lines: &mut [usize],
    lengths: &mut [usize],
    marks: &mut [usize],
)
    requires { Counted reader.old × (reader.old.line < 2 ^ 32) }
    ensures reader { reader.new ≡ loop_ended reader.old }
    ensures points { points.new ≡ put_point (loop_given reader.old).point reader.old.points points.old }
    ensures lines { lines.new ≡ put_line (loop_given reader.old).point reader.old.points lines.old }
    ensures lengths { lengths.new ≡ put_length (loop_given reader.old).ended reader.old.loops lengths.old }
    ensures marks { marks.new ≡ put_marks (loop_given reader.old).ended reader.old.loops marks.old }
{
    let (at_point, at_loop) = (reader.points, reader.loops);
    let given = reader.end_loop();
    put_point(&given.point, at_point, points, lines);
    put_loop(&given.ended, at_loop, lengths, marks);
}

/// Reads a text with a new reader, and writes what it gives as far as the lists reach: coordinates, each point's line, each loop's points, and its marks.
pub fn walk(
    text: &[u8],
    separator: u8,
    reader: &mut Reader,
    points: &mut [f64],
    lines: &mut [usize],
    lengths: &mut [usize],
    marks: &mut [usize],
)
    requires new { IsNew reader.old }
    requires fits { length text.now ≤ 2 ^ 28 }
    ensures reader { reader.new ≡ (walked separator text.now reader.old).reader }
    ensures points { points.new ≡ laid (walked separator text.now reader.old).out.points points.old }
    ensures lines { lines.new ≡ laid (walked separator text.now reader.old).out.lines lines.old }
    ensures lengths { lengths.new ≡ laid (walked separator text.now reader.old).out.lengths lengths.old }
    ensures marks { marks.new ≡ laid (walked separator text.now reader.old).out.marks marks.old }
{
    let mut from = 0;
    for i in 0..text.len() {
        if !is_end(text[i]) {
            continue;
        }
        if is_second(text, i) {
            from = i + 1;
            continue;
        }
        read_line(
            reader,
            &text[from..i],
            from,
            separator,
            points,
            lines,
            lengths,
            marks,
        );
        from = i + 1;
    }
    read_line(
        reader,
        &text[from..],
        from,
        separator,
        points,
        lines,
        lengths,
        marks,
    );
    end_loop(reader, points, lines, lengths, marks);
}
