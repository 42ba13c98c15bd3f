ghost use Rattle.exam_thresholds.specs.Figures.{results};
ghost use Rattle.exam.specs.Exam.{request_numbered, exam_mesh, reader_role};
ghost use Rattle.exam.specs.Statement.{ExamGiven};

use exam::ExamAnswer;

// One request of one role to an exam. 20 comes before all else; where anything is refused, nothing lent is written.
#[unsafe(no_mangle)]
pub extern "C" fn sitjorbe_exam(
    role: u32,
    operation: u32,
    item: u32,
    value: u32,
    u: u32,
    v: u32,
    nodes: u32,
    xs: &[f64],
    ys: &[f64],
    quad_count: usize,
    quads: &[u32],
    next: &[u32],
    prev: &[u32],
    origins: &[u16],
    thresholds: &mut [u16],
    count: &mut u32,
    sum: &mut u32,
    reply: &mut [u32],
) -> ExamAnswer
    ensures { ExamGiven
        (exam_mesh nodes xs.now ys.now quad_count quads.now next.now prev.now origins.now)
        (results thresholds.old count.old sum.old) role (request_numbered operation item value u v) reply.old
        result reply.new (results thresholds.new count.new sum.new) }
{
    exam_entry::sitjorbe_exam(
        role, operation, item, value, u, v, nodes, xs, ys, quad_count, quads, next, prev, origins,
        thresholds, count, sum, reply,
    )
}

// One reading request of a reader or a masked reader, to whom the results are lent for reading alone: what `sitjorbe_exam` answers to the role. The desk's role has no
// operation here. 20 comes before all else, and where anything is refused the reply list isn't written. A masked reader needs no results: any list and any figures do.
#[unsafe(no_mangle)]
pub extern "C" fn sitjorbe_exam_read(
    role: u32,
    operation: u32,
    item: u32,
    u: u32,
    v: u32,
    nodes: u32,
    xs: &[f64],
    ys: &[f64],
    quad_count: usize,
    quads: &[u32],
    next: &[u32],
    prev: &[u32],
    origins: &[u16],
    thresholds: &[u16],
    count: &u32,
    sum: &u32,
    reply: &mut [u32],
) -> ExamAnswer
    ensures { ExamGiven
        (exam_mesh nodes xs.now ys.now quad_count quads.now next.now prev.now origins.now)
        (results thresholds.now count.now sum.now) (reader_role role) (request_numbered operation item 0 u v) reply.old
        result reply.new (results thresholds.now count.now sum.now) }
{
    exam_entry::sitjorbe_exam_read(
        role, operation, item, u, v, nodes, xs, ys, quad_count, quads, next, prev, origins,
        thresholds, count, sum, reply,
    )
}
