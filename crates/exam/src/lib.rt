// One exam for three roles: the desk begins it, enters, withdraws and reads; a reader reads everything; a masked reader reads nodes, quads and loops only. Here is
// what is asked and answered, and in `specs/` what the answer is. Of code it has the roles, with what they may ask, and the answer as it crosses: `exam_requests`
// has what each request does, `exam_entry` the entry.
#![tactic(auto)]

ghost use Rattle.std.specs.Prelude.{◌≡◌};
ghost use Rattle.outline.specs.Refusals.{numbered};
ghost use Rattle.exam.specs.Exam.{role_number, may, exam_numbers};
ghost use Rattle.exam.specs.Roles.{NumbersRole};
ghost use Rattle.exam.specs.Calls.{EveryExamKeeps};

use front_lent_mesh::QuadIds;
use outline::{Point, Refusal};

// Who asks.
#[derive(Clone, Copy, PartialEq, Eq)]
pub enum Role {
    Desk,
    Reader,
    MaskedReader,
}

// The role with this number.
impl TryFrom<u32> for Role {
    type Error = Refusal;

    ghost try_from_gives = { NumbersRole };

    fn try_from(number: u32) -> Result<Role, Refusal> {
        match number {
            1 => Ok(Role::Desk),
            2 => Ok(Role::Reader),
            3 => Ok(Role::MaskedReader),
            _ => Err(Refusal::NotAllowed),
        }
    }
}

// What changes the results.
#[derive(Clone, Copy)]
pub enum ResultChange {
    Begin,
    Enter(u32, u32),
    Withdraw(u32),
}

// What reads the mesh alone.
#[derive(Clone, Copy)]
pub enum MeshRead {
    ReadNode(u32),
    ReadQuad(u32),
    ReadLoop(u32),
}

// What reads the results.
#[derive(Clone, Copy)]
pub enum ResultRead {
    ReadThreshold(u32),
    ReadFigures,
    ReadEstimate(u32, u32, u32),
}

// `Unknown` is a request too: the entry's promise (`ExamGiven`) is over `request_numbered`, which makes a request of
// every number.
#[derive(Clone, Copy)]
pub enum ExamRequest {
    Changes(ResultChange),
    ReadsMesh(MeshRead),
    ReadsResults(ResultRead),
    Unknown,
}

#[derive(Clone, Copy)]
pub enum ExamReply {
    Done,
    Node(Point, u32),
    Quad(QuadIds),
    Loop(usize),
    Threshold(u32),
    Figures(u32, u32),
    Estimate(u32),
}

impl Role {
    // Whether the role has the operation.
    pub fn may(self, request: ExamRequest) -> bool
        ensures { result ≡ may (role_number self) request }
    {
        match request {
            ExamRequest::Changes(_) => matches!(self, Role::Desk),
            ExamRequest::ReadsMesh(_) => true,
            ExamRequest::ReadsResults(_) => matches!(self, Role::Desk | Role::Reader),
            ExamRequest::Unknown => false,
        }
    }
}

// The reply as it crosses: `refusal` is 0 where nothing is refused; what isn't asked for is 0.
#[repr(C)]
#[derive(Clone, Copy, Default)]
pub struct ExamAnswer {
    pub refusal: u32,
    pub x: f64,
    pub y: f64,
    pub a: u32,
    pub b: u32,
    pub d: u32,
    pub c: u32,
    pub length: usize,
    pub threshold: u32,
    pub count: u32,
    pub sum: u32,
    pub estimate: u32,
    pub origin: u32,
}

impl From<Result<ExamReply, Refusal>> for ExamAnswer {
    ghost from_gives = { λ reply answer. answer ≡ exam_numbers (numbered reply) };

    #[tactic(auto, unfolding(crate::specs::Exam::exam_numbers))]
    fn from(reply: Result<ExamReply, Refusal>) -> ExamAnswer {
        let none = ExamAnswer::default();
        match reply {
            Err(refusal) => ExamAnswer {
                refusal: u32::from(refusal),
                ..none
            },
            Ok(ExamReply::Done) => none,
            Ok(ExamReply::Node(p, origin)) => ExamAnswer {
                x: p.x,
                y: p.y,
                origin,
                ..none
            },
            Ok(ExamReply::Quad(q)) => ExamAnswer {
                a: q.a,
                b: q.b,
                d: q.d,
                c: q.c,
                ..none
            },
            Ok(ExamReply::Loop(length)) => ExamAnswer { length, ..none },
            Ok(ExamReply::Threshold(threshold)) => ExamAnswer { threshold, ..none },
            Ok(ExamReply::Figures(count, sum)) => ExamAnswer { count, sum, ..none },
            Ok(ExamReply::Estimate(estimate)) => ExamAnswer { estimate, ..none },
        }
    }
}

// THE THEOREM of the figures, which is its contract: after any requests of any roles both are those worked out afresh. There is nothing to do.
pub fn figures_always_kept()
    ensures { EveryExamKeeps }
{}
