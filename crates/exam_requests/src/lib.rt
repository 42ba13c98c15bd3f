// Who may ask what of an exam, by any number, and what each request does. The mesh is only read, and what reads it is handed no results.
#![tactic(auto)]

ghost use Rattle.std.specs.Prelude.{◌≡◌};
ghost use Rattle.outline.specs.Refusals.{refused, numbered};
ghost use Rattle.front_lent_mesh.specs.Mesh.{mesh_lent};
ghost use Rattle.exam_thresholds.specs.Figures.{outcome};
ghost use Rattle.exam_results.specs.Lent.{results_lent, results_seen, SameBorrows};
ghost use Rattle.exam.specs.Exam.{may, request_numbered, nodes_in, mesh_in};
ghost use Rattle.exam.specs.Exam.{node_reply, quad_reply, loop_seen, seen, mesh_seen, reply_or, change_answer, threshold_reply, estimate_reply, result_reply, exam_numbers};
ghost use Rattle.exam_requests.specs.Lent.{exam_mesh_lent};

use exam::{ExamAnswer, ExamReply, ExamRequest, MeshRead, ResultChange, ResultRead, Role};
use exam_loop_reads::LentLinks;
use exam_results::{LentResults, SeenResults, Thresholds, Weights};
use front_lent_mesh::LentMesh;
use outline::Refusal;

// The mesh of an exam as it is lent.
// x and y are apart, and next and prev, as C lends them.
#[derive(Clone, Copy)]
pub struct LentExamMesh<'a> {
    pub nodes: u32,
    pub xs: &'a [f64],
    pub ys: &'a [f64],
    pub quad_count: usize,
    pub quads: &'a [u32],
    pub next: &'a [u32],
    pub prev: &'a [u32],
    pub origins: &'a [u16],
}

// ---- roles and requests

// Whether the role with this number has the operation; a number that no role has has none.
pub fn may(role: u32, request: ExamRequest) -> bool
    ensures { result ≡ may role request }
{
    match Role::try_from(role) {
        Ok(role) => role.may(request),
        Err(_) => false,
    }
}

// The request that an operation's number and the numbers beside it make.
#[tactic(auto, unfolding(exam::specs::Exam::request_numbered))]
pub fn request_numbered(operation: u32, item: u32, value: u32, u: u32, v: u32) -> ExamRequest
    ensures { result ≡ request_numbered operation item value u v }
{
    match operation {
        1 => ExamRequest::Changes(ResultChange::Begin),
        2 => ExamRequest::Changes(ResultChange::Enter(item, value)),
        3 => ExamRequest::Changes(ResultChange::Withdraw(item)),
        4 => ExamRequest::ReadsMesh(MeshRead::ReadNode(item)),
        5 => ExamRequest::ReadsMesh(MeshRead::ReadQuad(item)),
        6 => ExamRequest::ReadsMesh(MeshRead::ReadLoop(item)),
        7 => ExamRequest::ReadsResults(ResultRead::ReadThreshold(item)),
        8 => ExamRequest::ReadsResults(ResultRead::ReadFigures),
        9 => ExamRequest::ReadsResults(ResultRead::ReadEstimate(item, u, v)),
        _ => ExamRequest::Unknown,
    }
}

// The reply, unless it is refused: by any number but 0.
#[tactic(auto, unfolding(exam::specs::Exam::reply_or))]
pub fn reply_or(refusal: u32, reply: ExamReply) -> Result<ExamReply, u32>
    ensures { result ≡ reply_or refusal reply }
{
    if refusal != 0 {
        return Err(refusal);
    }
    Ok(reply)
}

// The reply as it crosses, refused by any number.
#[tactic(auto, unfolding(exam::specs::Exam::exam_numbers))]
pub fn exam_numbers(reply: Result<ExamReply, u32>) -> ExamAnswer
    ensures { result ≡ exam_numbers reply }
{
    match reply {
        Ok(reply) => ExamAnswer::from(Ok(reply)),
        Err(refusal) => ExamAnswer {
            refusal,
            ..ExamAnswer::default()
        },
    }
}

// ---- reading the mesh

impl<'a> LentExamMesh<'a> {
    // The count of nodes: it stops where a coordinate or the origin isn't lent.
    #[tactic(auto, unfolding(exam::specs::Exam::nodes_lent))]
    pub fn nodes(self) -> u32
        ensures { result ≡ nodes_in (exam_mesh_lent self.entry) }
    {
        let placed = front_lent_mesh::node_count(self.nodes, self.xs, self.ys);
        (placed as usize).min(self.origins.len()) as u32
    }

    // What figures and estimates are made of.
    pub fn mesh(self) -> LentMesh<'a>
        ensures { mesh_lent result ≡ mesh_in (exam_mesh_lent self.entry) }
    {
        LentMesh {
            nodes: self.nodes(),
            quad_count: self.quad_count,
            quads: self.quads,
        }
    }

    // What its loops are read from.
    fn links(self) -> LentLinks<'a>
        ensures { (result.nodes ≡ nodes_in (exam_mesh_lent self.entry))
            × (result.next.now ≡ self.entry.next.now) × (result.prev.now ≡ self.entry.prev.now) }
    {
        LentLinks {
            nodes: self.nodes(),
            next: self.next,
            prev: self.prev,
        }
    }
}

impl LentExamMesh<'_> {
    #[tactic(auto, unfolding(exam::specs::Exam::node_reply))]
    fn node_reply(self, id: u32) -> Result<ExamReply, Refusal>
        ensures { let m = exam_mesh_lent self.entry in numbered result ≡ node_reply (nodes_in m) m.xs m.ys m.origins id }
    {
        if id >= self.nodes() {
            return Err(Refusal::NoNode);
        }
        let origin = self.origins.get(id as usize).copied().unwrap_or(0);
        let p = front::node_at(self.xs, self.ys, id);
        Ok(ExamReply::Node(p, u32::from(origin)))
    }

    #[tactic(auto, unfolding(exam::specs::Exam::quad_reply))]
    fn quad_reply(self, k: u32) -> Result<ExamReply, Refusal>
        ensures { numbered result ≡ quad_reply self.entry.quad_count self.entry.quads.now k }
    {
        let i = k as usize;
        if i >= front_lent_mesh::quad_count(self.quad_count, self.quads) {
            return Err(Refusal::NoQuad);
        }
        Ok(ExamReply::Quad(front_lent_mesh::quad_at(self.quads, i)))
    }

    #[tactic(auto, unfolding(exam::specs::Exam::loop_seen))]
    fn loop_reply(self, k: u32, reply: &mut [u32]) -> Result<ExamReply, Refusal>
        ensures { let m = exam_mesh_lent self.entry in
            seen (numbered result) reply.new ≡ loop_seen (nodes_in m) m.next m.prev k reply.old }
    {
        Ok(ExamReply::Loop(self.links().read_loop(k, reply)?))
    }

    #[inline(always)]
    #[tactic(auto, unfolding(exam::specs::Exam::mesh_seen))]
    pub fn read(self, read: MeshRead, reply: &mut [u32]) -> Result<ExamReply, Refusal>
        ensures { seen (numbered result) reply.new ≡ mesh_seen (exam_mesh_lent self.entry) read reply.old }
    {
        match read {
            MeshRead::ReadNode(id) => self.node_reply(id),
            MeshRead::ReadQuad(k) => self.quad_reply(k),
            MeshRead::ReadLoop(k) => self.loop_reply(k, reply),
        }
    }
}

// ---- the results

// A function, and so is `read_results`: `LentResults` is of a crate below, which has no requests.
#[tactic(auto, unfolding(exam::specs::Exam::change_answer))]
pub fn change_results(
    change: ResultChange,
    mesh: LentMesh<'_>,
    results: &mut LentResults<'_>,
) -> Result<(), Refusal>
    ensures same { SameBorrows results.old results.new }
    ensures left { outcome (refused result) (results_lent results.new)
        ≡ change_answer (mesh_lent mesh.entry) (results_lent results.old) change }
{
    match change {
        ResultChange::Begin => {
            results.begin();
            Ok(())
        }
        ResultChange::Enter(id, v) => results.enter(mesh, id, v),
        ResultChange::Withdraw(id) => results.withdraw(mesh, id),
    }
}

#[tactic(auto, using(exam_results::specs::FigureLaws::refusal_answered), unfolding(exam::specs::Exam::threshold_reply, exam::specs::Exam::reply_or))]
fn threshold_reply(thresholds: &Thresholds<'_>, id: u32) -> Result<ExamReply, Refusal>
    ensures { numbered result ≡ threshold_reply thresholds.now.mesh.nodes thresholds.now.list.now id }
{
    let v = thresholds.at(id);
    thresholds.check(id, v, Refusal::NoThreshold)?;
    Ok(ExamReply::Threshold(v))
}

#[tactic(auto, unfolding(exam::specs::Exam::estimate_reply))]
fn estimate_reply(
    thresholds: &Thresholds<'_>,
    k: u32,
    weights: Weights,
) -> Result<ExamReply, Refusal>
    ensures { numbered result ≡ estimate_reply (mesh_lent thresholds.now.mesh) thresholds.now.list.now k weights.u weights.v }
{
    Ok(ExamReply::Estimate(thresholds.estimate_at(k as usize, weights)?))
}

// Inlined at both entries, and so is `LentExamMesh::read`: as a call a read takes up to two fifths more instructions.
#[inline(always)]
#[tactic(auto, unfolding(exam::specs::Exam::result_reply))]
pub fn read_results(
    read: ResultRead,
    mesh: LentMesh<'_>,
    results: SeenResults<'_>,
) -> Result<ExamReply, Refusal>
    ensures { numbered result ≡ result_reply (mesh_lent mesh.entry) (results_seen results.entry) read }
{
    let thresholds = results.thresholds(mesh);
    match read {
        ResultRead::ReadThreshold(id) => threshold_reply(&thresholds, id),
        ResultRead::ReadFigures => Ok(ExamReply::Figures(results.count, results.sum)),
        ResultRead::ReadEstimate(k, u, v) => estimate_reply(&thresholds, k, Weights { u, v }),
    }
}
