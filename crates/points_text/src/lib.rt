//! What a line of a points file tells: its words, the numbers that they say, and what is wrong with it.
#![tactic(auto)]

ghost use Rattle.std.specs.Prelude.{◌≡◌, position, ◌==◌, cond, ◌+◌, ◌<◌, ◌≤◌, length, take};
ghost use Rattle.std.specs.List.{list_any, count_by};
ghost use Rattle.points_text.specs.Words.{is_blank, is_empty, no_cells, cell_ended, letter_read, cell_turn, cells, is_tabbed, values};
ghost use Rattle.points_text.specs.Numbers.{has_decimal_comma, minus_at, plain_byte, plain_word, number};
ghost use Rattle.points_text.specs.Lines.{is_letter, is_hash, comment_at, word_of, coordinate, point_of, is_title, is_heading, told_of};
ghost use Rattle.points_text.specs.Bounds.{SpanFits, CellsFit, TellsWithin, WrongWithin};

/// A word's places in its line, from `begin` to before `end`; none where they are equal.
#[derive(Clone, Copy)]
pub struct Span {
    pub begin: usize,
    pub end: usize,
}

/// The cells of a row: the last word, how many there are, how many up to the last that has a word, and the words of the first two; whether one has a
/// word, whether more have, whether a word begins or ends with a comma, and whether the last ends with one so far.
#[derive(Clone, Copy)]
pub struct Cells {
    pub word: Span,
    pub count: usize,
    pub used: usize,
    pub x: Span,
    pub y: Span,
    pub some: bool,
    pub more: bool,
    pub edge: bool,
    pub comma: bool,
}

/// A point of the field, in degrees.
#[derive(Clone, Copy)]
pub struct Place {
    pub x: f64,
    pub y: f64,
}

/// What is wrong with a row, by number, and at which place of its line.
#[derive(Clone, Copy)]
pub struct Wrong {
    pub kind: u32,
    pub at: usize,
}

/// What a line tells. Of a comment, where its `#` stands.
#[derive(Clone, Copy)]
pub enum Told {
    Blank,
    Comment(usize),
    Heading,
    Point(Place),
    Wrong(Wrong),
}

/// A row that hasn't two values.
pub const NOT_TWO: u32 = 1;

/// A row without an x, and one without a y. Where the word is there and is no number, it is two more.
pub const NO_X: u32 = 2;

pub const NO_Y: u32 = 3;

/// A word of more bytes is no number: the longest exact decimal of a double has 1,077.
pub const LONGEST_NUMBER: usize = 1_100;

// ---- words

fn is_blank(b: u8) -> bool
    ensures { result ≡ is_blank b }
{
    b == b' ' || b == b'\t' || b == b'"'
}

impl Span {
    fn is_empty(self) -> bool
        ensures { result ≡ is_empty self }
    {
        self.begin == self.end
    }
}

impl Cells {
    #[tactic(auto, unfolding(crate::specs::Words::no_cells))]
    fn none() -> Cells
        ensures { result ≡ no_cells }
    {
        let none = Span { begin: 0, end: 0 };
        Cells {
            word: none,
            count: 0,
            used: 0,
            x: none,
            y: none,
            some: false,
            more: false,
            edge: false,
            comma: false,
        }
    }

    // The cell that is read ends.
    #[tactic(auto, unfolding(crate::specs::Words::cell_ended))]
    fn ended(self) -> Cells
        requires { self.count < usize.MAX }
        ensures { result ≡ cell_ended self }
    {
        let count = self.count + 1;
        Cells {
            word: self.word,
            count,
            used: if self.word.is_empty() {
                self.used
            } else {
                count
            },
            x: if self.count == 0 { self.word } else { self.x },
            y: if self.count == 1 { self.word } else { self.y },
            some: self.some || !self.word.is_empty(),
            more: self.more || self.some && !self.word.is_empty(),
            edge: self.edge || self.comma,
            comma: false,
        }
    }

    // A letter `b`, at place `i` of the row.
    #[tactic(auto, unfolding(crate::specs::Words::letter_read))]
    fn read_letter(self, b: u8, i: usize) -> Cells
        requires { i < usize.MAX }
        ensures { result ≡ letter_read b i self }
    {
        let begins = self.word.is_empty();
        let begin = if begins { i } else { self.word.begin };
        Cells {
            word: Span { begin, end: i + 1 },
            edge: self.edge || begins && b == b',',
            comma: b == b',',
            ..self
        }
    }

    // Byte `b`, at place `i` of the row.
    #[tactic(auto, unfolding(crate::specs::Words::cell_turn))]
    fn read(self, separator: u8, b: u8, i: usize) -> Cells
        requires { (self.count < usize.MAX) × (i < usize.MAX) }
        ensures { result ≡ cell_turn separator b i self }
    {
        if b == separator {
            let word = Span {
                begin: i + 1,
                end: i + 1,
            };
            return Cells {
                word,
                ..self.ended()
            };
        }
        if is_blank(b) {
            return self;
        }
        self.read_letter(b, i)
    }

    // How many values the row has.
    #[tactic(auto, unfolding(crate::specs::Words::values))]
    fn values(&self) -> usize
        ensures { result ≡ values self.now }
    {
        if self.count <= 2 {
            self.count
        } else if self.used <= 2 {
            2
        } else {
            self.used
        }
    }
}

// The cells of a row.
fn read_cells(row: &[u8], separator: u8) -> Cells
    ensures is { result ≡ cells separator row.now }
    ensures fits { CellsFit (length row.now) result }
{
    let mut cells = Cells::none();
    for i in 0..row.len() {
        cells = cells.read(separator, row[i], i);
    }
    cells.ended()
}

/// Whether a row has words with a tab between, and no comma beside it.
#[tactic(auto, unfolding(crate::specs::Words::is_tabbed))]
pub fn is_tabbed(row: &[u8]) -> bool
    ensures { result ≡ is_tabbed row.now }
{
    let cells = read_cells(row, b'\t');
    cells.more && !cells.edge
}

// ---- numbers

fn commas(word: &[u8]) -> usize
    ensures { result ≡ count_by (λ b. b == 44) word.now }
{
    word.iter().filter(|b| **b == b',').count()
}

fn has_point(word: &[u8]) -> bool
    ensures { result ≡ list_any (λ b. b == 46) word.now }
{
    word.iter().any(|b| *b == b'.')
}

#[tactic(auto, unfolding(crate::specs::Numbers::has_decimal_comma))]
fn has_decimal_comma(word: &[u8], separator: u8) -> bool
    ensures { result ≡ has_decimal_comma separator word.now }
{
    separator != b',' && commas(word) == 1 && !has_point(word)
}

// Whether U+2212, a minus sign of three bytes, stands at place `i`.
fn minus_at(word: &[u8], i: usize) -> bool
    requires { i < length word.now }
    ensures { result ≡ minus_at word.now i }
{
    i + 2 < word.len() && word[i] == 0xe2 && word[i + 1] == 0x88 && word[i + 2] == 0x92
}

// What the byte at place `i` is in ASCII.
#[tactic(auto, unfolding(crate::specs::Numbers::plain_byte))]
fn plain_byte(word: &[u8], i: usize, comma: bool) -> u8
    requires { i < length word.now }
    ensures { result ≡ plain_byte comma word.now i }
{
    if minus_at(word, i) {
        b'-'
    } else if comma && word[i] == b',' {
        b'.'
    } else {
        word[i]
    }
}

// How many bytes of a sign stand behind its first, which is at place `i`.
fn sign_rest(word: &[u8], i: usize) -> usize
    requires { i < length word.now }
    ensures { result ≡ cond (minus_at word.now i) 2 0 }
{
    if minus_at(word, i) { 2 } else { 0 }
}

// Writes a word in ASCII, and says how many bytes that takes.
fn write_plain(word: &[u8], comma: bool, out: &mut [u8; LONGEST_NUMBER]) -> usize
    requires { length word.now ≤ 1100 }
    ensures within { result ≤ 1100 }
    ensures is { take result out.new ≡ plain_word comma word.now }
{
    let mut skip = 0;
    let mut n = 0;
    for i in 0..word.len() {
        if skip > 0 {
            skip -= 1;
            continue;
        }
        out[n] = plain_byte(word, i, comma);
        skip = sign_rest(word, i);
        n += 1;
    }
    n
}

/// The double nearest to the decimal that a word says, or none.
#[tactic(auto, unfolding(crate::specs::Numbers::number))]
pub fn number(word: &[u8], separator: u8) -> Option<f64>
    ensures { result ≡ number separator word.now }
{
    if word.len() > LONGEST_NUMBER {
        return None;
    }
    let mut plain = [0u8; LONGEST_NUMBER];
    let n = write_plain(word, has_decimal_comma(word, separator), &mut plain);
    fast_float::parse(&plain[..n]).ok()
}

// ---- a line

// The coordinate of a word, or what is wrong with it: `missing` where there is no word.
#[tactic(auto, unfolding(crate::specs::Lines::coordinate))]
fn coordinate(row: &[u8], separator: u8, word: Span, missing: u32) -> Result<f64, Wrong>
    requires fits { SpanFits (length row.now) word }
    requires few { missing ≤ 3 }
    ensures within { WrongWithin (length row.now) result }
    ensures is { result ≡ coordinate missing word (number separator (word_of row.now word)) }
{
    match number(&row[word.begin..word.end], separator) {
        Some(x) => Ok(x),
        None => Err(Wrong {
            kind: if word.is_empty() {
                missing
            } else {
                missing + 2
            },
            at: word.begin,
        }),
    }
}

// The point of a row.
#[tactic(auto, unfolding(crate::specs::Lines::point_of, crate::specs::Lines::pair))]
fn point_of(row: &[u8], separator: u8, cells: &Cells) -> Result<Place, Wrong>
    requires { CellsFit (length row.now) cells.now }
    ensures within { WrongWithin (length row.now) result }
    ensures is { result ≡ point_of separator row.now cells.now }
{
    if cells.values() != 2 {
        return Err(Wrong {
            kind: NOT_TWO,
            at: cells.x.begin,
        });
    }
    let x = coordinate(row, separator, cells.x, NO_X)?;
    let y = coordinate(row, separator, cells.y, NO_Y)?;
    Ok(Place { x, y })
}

fn is_letter(b: u8) -> bool
    ensures { result ≡ is_letter b }
{
    b.is_ascii_alphabetic() || b >= 128
}

// Whether a word begins with a letter and is no number.
#[tactic(auto, unfolding(crate::specs::Lines::is_title))]
fn is_title(word: &[u8], separator: u8) -> bool
    ensures { result ≡ is_title separator word.now }
{
    let first = if word.is_empty() { 0 } else { word[0] };
    is_letter(first) && number(word, separator).is_none()
}

// Whether a row has two such words.
#[tactic(auto, unfolding(crate::specs::Lines::is_heading))]
fn is_heading(row: &[u8], separator: u8, cells: &Cells) -> bool
    requires { CellsFit (length row.now) cells.now }
    ensures { result ≡ is_heading separator row.now cells.now }
{
    cells.values() == 2
        && is_title(&row[cells.x.begin..cells.x.end], separator)
        && is_title(&row[cells.y.begin..cells.y.end], separator)
}

// Where the first `#` of a line is.
fn hash(line: &[u8]) -> Option<usize>
    ensures { result ≡ position is_hash line.now }
{
    line.iter().position(|b| *b == b'#')
}

/// Where a line's comment begins: at its length where it has none.
#[tactic(auto, using(crate::proofs::Comments::comment_within))]
pub fn comment_at(line: &[u8]) -> usize
    ensures is { result ≡ comment_at line.now }
    ensures within { result ≤ length line.now }
{
    match hash(line) {
        Some(at) => at,
        None => line.len(),
    }
}

/// What a line tells; `first` says that no row has been read, so that it may be a heading.
#[tactic(auto, unfolding(crate::specs::Lines::told_of, crate::specs::Lines::row_told))]
pub fn told_of(line: &[u8], separator: u8, first: bool) -> Told
    ensures is { result ≡ told_of separator first line.now }
    ensures within { TellsWithin (length line.now) result }
{
    let at = comment_at(line);
    let row = &line[..at];
    let cells = read_cells(row, separator);
    if cells.used == 0 {
        return if at == line.len() {
            Told::Blank
        } else {
            Told::Comment(at)
        };
    }
    if first && is_heading(row, separator, &cells) {
        return Told::Heading;
    }
    match point_of(row, separator, &cells) {
        Ok(place) => Told::Point(place),
        Err(wrong) => Told::Wrong(wrong),
    }
}
