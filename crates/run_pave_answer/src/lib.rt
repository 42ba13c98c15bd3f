// The run's answer as it crosses to the host.
#![tactic(auto)]

ghost use Rattle.std.specs.Prelude.{◌≡◌};
ghost use Rattle.outline.specs.Refusals.{numbered};
ghost use Rattle.run_pave_answer.specs.Numbers.{pave_numbers};

use outline::Refusal;
use run::Paved;

// A run's end (0 still, 1 passes, 2 cap, 3 full) and whether it is whole, its field record's floats and counts, how many nodes, quads, distinct
// edges and front edges it has, how many loops of the front are listed, and the ids in all of them. All else is in the lists lent. All is 0 on
// a refusal.
#[repr(C)]
#[derive(Clone, Copy, Default)]
pub struct PaveAnswer {
    pub refusal: u32,
    pub end: u32,
    pub whole: bool,
    pub xmin: f64,
    pub ymin: f64,
    pub h: f64,
    pub nx: usize,
    pub ny: usize,
    pub nodes: u32,
    pub quads: usize,
    pub edges: usize,
    pub front: usize,
    pub loops: usize,
    pub ids: usize,
}

// What a run answers, refused by whatever number.
#[tactic(auto, unfolding(crate::specs::Numbers::pave_numbers))]
pub fn pave_numbers(run: Result<Paved, u32>) -> PaveAnswer
    ensures { result ≡ pave_numbers run }
{
    match run {
        Err(refusal) => PaveAnswer {
            refusal,
            ..PaveAnswer::default()
        },
        Ok(paved) => PaveAnswer {
            refusal: 0,
            end: u32::from(paved.end),
            whole: paved.whole,
            xmin: paved.grid.xmin,
            ymin: paved.grid.ymin,
            h: paved.grid.h,
            nx: paved.grid.nx,
            ny: paved.grid.ny,
            nodes: paved.counts.nodes,
            quads: paved.counts.quads,
            edges: paved.counts.edges,
            front: paved.counts.front,
            loops: paved.listed.count,
            ids: paved.listed.ids,
        },
    }
}

impl From<Result<Paved, Refusal>> for PaveAnswer {
    ghost from_gives = { λ run answer. answer ≡ pave_numbers (numbered run) };

    fn from(run: Result<Paved, Refusal>) -> PaveAnswer {
        match run {
            Err(refusal) => pave_numbers(Err(u32::from(refusal))),
            Ok(paved) => pave_numbers(Ok(paved)),
        }
    }
}
