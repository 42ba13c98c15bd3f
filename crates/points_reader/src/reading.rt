// What is kept from line to line, and what a line gives.
ghost use Rattle.std.specs.Prelude.{◌≡◌, ◌+◌, ◌-◌, ◌^◌, ◌<◌, ◌≤◌, length};
ghost use Rattle.points_reader.specs.Reading.{new_reader, is_first, faulted, repeats, loop_ended, loop_given, remarked, point_taken, point_given, comment_taken, line_read, line_given, told_read, told_given};
ghost use Rattle.points_reader.specs.Counts.{Counted, IsNew};
ghost use Rattle.points_text.specs.Bounds.{TellsWithin};

use points_text::{Place, Told};

/// A point, and the line that it was read from, from 1.
#[derive(Clone, Copy)]
pub struct Spot {
    pub x: f64,
    pub y: f64,
    pub line: usize,
}

/// A comment alone on its line: its line, 0 for none, the column of its `#`, and the places of its text.
#[derive(Clone, Copy)]
pub struct Remark {
    pub line: usize,
    pub column: usize,
    pub from: usize,
    pub to: usize,
}

/// What is wrong with a line: the kind, the line and the column in bytes, both from 1, and whether no row stands before it.
#[derive(Clone, Copy)]
pub struct Fault {
    pub kind: u32,
    pub line: usize,
    pub column: usize,
    pub leads: bool,
}

/// A loop that has ended: its points, the places of the comment that names it, and the line of the last point where that is left out, or 0.
#[derive(Clone, Copy)]
pub struct Ended {
    pub length: usize,
    pub from: usize,
    pub to: usize,
    pub left: usize,
}

/// What a line gives: at most a point and the end of a loop.
#[derive(Clone, Copy)]
pub struct Given {
    pub point: Option<Spot>,
    pub ended: Option<Ended>,
}

/// What is kept from line to line: how many lines have been read, the line of the heading, how many loops have ended and how many points been given, how many
/// points the loop has that is read, its first point and its last, which isn't given yet, its name, the comment right before, and the faults.
#[derive(Clone, Copy)]
pub struct Reader {
    pub line: usize,
    pub heading: usize,
    pub loops: usize,
    pub points: usize,
    pub here: usize,
    pub first: Spot,
    pub last: Spot,
    pub name: Remark,
    pub pending: Remark,
    pub faults: usize,
    pub which: usize,
    pub fault: Fault,
}

/// A comment between two points of a loop.
pub const COMMENT: u32 = 6;

const NO_REMARK: Remark = Remark {
    line: 0,
    column: 0,
    from: 0,
    to: 0,
};

const NO_SPOT: Spot = Spot {
    x: 0.0,
    y: 0.0,
    line: 0,
};

const NOTHING: Given = Given {
    point: None,
    ended: None,
};

impl Reader {
    /// Before the first line; `which` of the faults is asked for, from 0.
    #[tactic(auto, unfolding(crate::specs::Reading::new_reader))]
    pub fn new(which: usize) -> Reader
        ensures is { result ≡ new_reader which }
        ensures new { IsNew result }
    {
        Reader {
            line: 0,
            heading: 0,
            loops: 0,
            points: 0,
            here: 0,
            first: NO_SPOT,
            last: NO_SPOT,
            name: NO_REMARK,
            pending: NO_REMARK,
            faults: 0,
            which,
            fault: Fault {
                kind: 0,
                line: 0,
                column: 0,
                leads: false,
            },
        }
    }

    // Whether no row has been read.
    #[tactic(auto, unfolding(crate::specs::Reading::is_first))]
    fn is_first(&self) -> bool
        ensures { result ≡ is_first self.now }
    {
        self.loops == 0 && self.here == 0 && (self.faults == 0 && self.heading == 0)
    }

    #[tactic(auto, unfolding(crate::specs::Reading::faulted))]
    fn take_fault(&mut self, fault: Fault)
        requires { self.old.faults < usize.MAX }
        ensures { self.new ≡ faulted fault self.old }
    {
        if self.faults == self.which {
            self.fault = fault;
        }
        self.faults += 1;
    }

    // Whether the last point of the loop, which isn't its only one, repeats the first.
    #[tactic(auto, unfolding(crate::specs::Reading::repeats))]
    fn repeats(&self) -> bool
        ensures { result ≡ repeats self.now }
    {
        1 < self.here && (self.first.x == self.last.x && self.first.y == self.last.y)
    }

    // The loop ends, if there is one.
    #[tactic(auto, unfolding(crate::specs::Reading::loop_ended, crate::specs::Reading::loop_given))]
    pub fn end_loop(&mut self) -> Given
        requires { Counted self.old × (self.old.line < usize.MAX) }
        ensures is { self.new ≡ loop_ended self.old }
        ensures given { result ≡ loop_given self.old }
    {
        let repeats = self.repeats();
        self.pending = NO_REMARK;
        if self.here == 0 {
            return NOTHING;
        }
        let (length, from, to) = (self.here, self.name.from, self.name.to);
        self.loops += 1;
        self.here = 0;
        if repeats {
            let (length, left) = (length - 1, self.last.line);
            return Given {
                point: None,
                ended: Some(Ended {
                    length,
                    from,
                    to,
                    left,
                }),
            };
        }
        self.points += 1;
        Given {
            point: Some(self.last),
            ended: Some(Ended {
                length,
                from,
                to,
                left: 0,
            }),
        }
    }

    // A comment that stands alone between two points of a loop is a fault.
    #[tactic(auto, unfolding(crate::specs::Reading::remarked))]
    fn remark(&mut self)
        requires { self.old.faults < usize.MAX }
        ensures { self.new ≡ remarked self.old }
    {
        if self.pending.line == 0 {
            return;
        }
        self.take_fault(Fault {
            kind: COMMENT,
            line: self.pending.line,
            column: self.pending.column,
            leads: false,
        });
    }

    // A point begins a loop, which the comment right before it names, or goes on with one; then the point before it is given.
    #[tactic(auto, unfolding(crate::specs::Reading::point_taken, crate::specs::Reading::point_given))]
    fn take_point(&mut self, place: Place) -> Given
        requires { Counted self.old × (self.old.line < usize.MAX) }
        ensures is { self.new ≡ point_taken place self.old }
        ensures given { result ≡ point_given self.old }
    {
        let spot = Spot {
            x: place.x,
            y: place.y,
            line: self.line,
        };
        if self.here == 0 {
            self.here = 1;
            self.first = spot;
            self.last = spot;
            self.name = self.pending;
            self.pending = NO_REMARK;
            return NOTHING;
        }
        let given = Given {
            point: Some(self.last),
            ended: None,
        };
        self.points += 1;
        self.here += 1;
        self.last = spot;
        self.remark();
        self.pending = NO_REMARK;
        given
    }

    // The comment whose `#` is at `k` of the line of `n` bytes that begins at `at`. Of the comments right before a loop the first counts.
    #[tactic(auto, unfolding(crate::specs::Reading::comment_taken))]
    fn take_comment(&mut self, at: usize, n: usize, k: usize)
        requires { (k < n) × (at + n < usize.MAX) }
        ensures { self.new ≡ comment_taken at n k self.old }
    {
        if self.pending.line == 0 {
            self.pending = Remark {
                line: self.line,
                column: k + 1,
                from: at + k + 1,
                to: at + n,
            };
        }
    }

    // What a line told, which begins at `at` and has `n` bytes.
    #[tactic(auto, unfolding(crate::specs::Reading::told_read, crate::specs::Reading::told_given))]
    fn take(&mut self, at: usize, n: usize, told: Told) -> Given
        requires counted { Counted self.old × (self.old.line < 2 ^ 32) }
        requires fits { TellsWithin n told × (at + n < usize.MAX) }
        ensures is { self.new ≡ told_read at n told self.old }
        ensures given { result ≡ told_given told self.old }
    {
        match told {
            Told::Blank => self.end_loop(),
            Told::Comment(k) => {
                self.take_comment(at, n, k);
                NOTHING
            }
            Told::Heading => {
                self.heading = self.line;
                NOTHING
            }
            Told::Point(place) => self.take_point(place),
            Told::Wrong(wrong) => {
                let leads = self.is_first();
                self.take_fault(Fault {
                    kind: wrong.kind,
                    line: self.line,
                    column: wrong.at + 1,
                    leads,
                });
                NOTHING
            }
        }
    }

    /// Reads a line, which begins at `at`.
    #[tactic(auto, unfolding(crate::specs::Reading::line_read, crate::specs::Reading::line_given))]
    pub fn read(&mut self, line: &[u8], at: usize, separator: u8) -> Given
        requires counted { Counted self.old × (self.old.line < 2 ^ 32 - 1) }
        requires fits { at + length line.now < usize.MAX }
        ensures is { self.new ≡ line_read separator line.now at self.old }
        ensures given { result ≡ line_given separator line.now self.old }
    {
        let told = points_text::told_of(line, separator, self.is_first());
        self.line += 1;
        self.take(at, line.len(), told)
    }
}
