// The public entries of an exam: what a host calls, on numbers and slices. Neither has a `requires`. The mesh is only read; of the results and the reply list, lent as
// `&mut`, nothing is written where the call is refused. To the entry of readers the results are lent as `&`.
#![tactic(auto)]

ghost use Rattle.std.specs.Prelude.{◌≡◌};
ghost use Rattle.outline.specs.Refusals.{numbered};
ghost use Rattle.exam_thresholds.specs.Figures.{results};
ghost use Rattle.exam_results.specs.Lent.{results_lent, results_seen, SameBorrows};
ghost use Rattle.exam.specs.Exam.{request_numbered, exam_mesh, acted, exam_acts, reader_role};
ghost use Rattle.exam.specs.Statement.{ExamGiven};
ghost use Rattle.exam_requests.specs.Lent.{exam_mesh_lent};

use exam::{ExamAnswer, ExamReply, ExamRequest, Role};
use exam_requests::LentExamMesh;
use exam_results::{LentResults, SeenResults};
use outline::Refusal;

// What is replied. It is refused before all else where the role lacks the operation.
// By the role's number: one that no role has is refused here as well, by `?`.
#[tactic(auto, using(crate::proofs::CodeLaws::no_role, exam_results::specs::FigureLaws::refusal_answered), unfolding(exam::specs::Exam::exam_acts, exam::specs::Exam::reply_or))]
fn ask(
    role: u32,
    request: ExamRequest,
    mesh: LentExamMesh<'_>,
    results: &mut LentResults<'_>,
    reply: &mut [u32],
) -> Result<ExamReply, Refusal>
    ensures same { SameBorrows results.old results.new }
    ensures acts { acted (numbered result) reply.new (results_lent results.new)
        ≡ exam_acts (exam_mesh_lent mesh.entry) (results_lent results.old) role request reply.old }
{
    let role = Role::try_from(role)?;
    if !role.may(request) {
        return Err(Refusal::NotAllowed);
    }
    match request {
        ExamRequest::Changes(change) => {
            exam_requests::change_results(change, mesh.mesh(), results)?;
            Ok(ExamReply::Done)
        }
        ExamRequest::ReadsMesh(read) => mesh.read(read, reply),
        ExamRequest::ReadsResults(read) => exam_requests::read_results(
            read,
            mesh.mesh(),
            results.seen(),
        ),
        ExamRequest::Unknown => Err(Refusal::NotAllowed),
    }
}

// What a reader or a masked reader is replied; the desk is refused.
#[tactic(auto, using(crate::proofs::CodeLaws::no_role, crate::proofs::CodeLaws::no_reader), unfolding(exam::specs::Exam::exam_acts, exam::specs::Exam::reader_role))]
fn ask_to_read(
    role: u32,
    request: ExamRequest,
    mesh: LentExamMesh<'_>,
    results: SeenResults<'_>,
    reply: &mut [u32],
) -> Result<ExamReply, Refusal>
    ensures { acted (numbered result) reply.new (results_seen results.entry)
        ≡ exam_acts (exam_mesh_lent mesh.entry) (results_seen results.entry) (reader_role role) request reply.old }
{
    let role = Role::try_from(role)?;
    if matches!(role, Role::Desk) || !role.may(request) {
        return Err(Refusal::NotAllowed);
    }
    match request {
        ExamRequest::ReadsMesh(read) => mesh.read(read, reply),
        ExamRequest::ReadsResults(read) => exam_requests::read_results(read, mesh.mesh(), results),
        _ => Err(Refusal::NotAllowed),
    }
}

// One request of one role to an exam. 20 comes before all else; where anything is refused, nothing lent is written.
#[unsafe(no_mangle)]
pub extern "C" fn sitjorbe_exam(
    role: u32,
    operation: u32,
    item: u32,
    value: u32,
    u: u32,
    v: u32,
    nodes: u32,
    xs: &[f64],
    ys: &[f64],
    quad_count: usize,
    quads: &[u32],
    next: &[u32],
    prev: &[u32],
    origins: &[u16],
    thresholds: &mut [u16],
    count: &mut u32,
    sum: &mut u32,
    reply: &mut [u32],
) -> ExamAnswer
    ensures { ExamGiven
        (exam_mesh nodes xs.now ys.now quad_count quads.now next.now prev.now origins.now)
        (results thresholds.old count.old sum.old) role (request_numbered operation item value u v) reply.old
        result reply.new (results thresholds.new count.new sum.new) }
{
    let request = exam_requests::request_numbered(operation, item, value, u, v);
    let mesh = LentExamMesh {
        nodes,
        xs,
        ys,
        quad_count,
        quads,
        next,
        prev,
        origins,
    };
    let mut results = LentResults {
        thresholds,
        count,
        sum,
    };
    ExamAnswer::from(ask(role, request, mesh, &mut results, reply))
}

// One reading request of a reader or a masked reader, to whom the results are lent for reading alone: what `sitjorbe_exam` answers to the role. The desk's role has no
// operation here. 20 comes before all else, and where anything is refused the reply list isn't written. A masked reader needs no results: any list and any figures do.
#[unsafe(no_mangle)]
pub extern "C" fn sitjorbe_exam_read(
    role: u32,
    operation: u32,
    item: u32,
    u: u32,
    v: u32,
    nodes: u32,
    xs: &[f64],
    ys: &[f64],
    quad_count: usize,
    quads: &[u32],
    next: &[u32],
    prev: &[u32],
    origins: &[u16],
    thresholds: &[u16],
    count: &u32,
    sum: &u32,
    reply: &mut [u32],
) -> ExamAnswer
    ensures { ExamGiven
        (exam_mesh nodes xs.now ys.now quad_count quads.now next.now prev.now origins.now)
        (results thresholds.now count.now sum.now) (reader_role role) (request_numbered operation item 0 u v) reply.old
        result reply.new (results thresholds.now count.now sum.now) }
{
    let request = exam_requests::request_numbered(operation, item, 0, u, v);
    let mesh = LentExamMesh {
        nodes,
        xs,
        ys,
        quad_count,
        quads,
        next,
        prev,
        origins,
    };
    let results = SeenResults {
        thresholds,
        count: *count,
        sum: *sum,
    };
    ExamAnswer::from(ask_to_read(role, request, mesh, results, reply))
}
