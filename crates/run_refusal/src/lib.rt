// The refusals 1 to 10 of a run, by the places that are lent.
#![tactic(auto)]

ghost use Rattle.std.specs.Prelude.{◌≡◌, min};
ghost use Rattle.outline.specs.Outline.{outline_of, first_of};
ghost use Rattle.outline.specs.Refusals.{refused};
ghost use Rattle.field_cross.specs.Field.{refusal_for};
ghost use Rattle.front.specs.State.{fewest, most_nodes};
ghost use Rattle.front.specs.Sampling.{sampled_refusal};
ghost use Rattle.run_refusal.specs.Lengths.{lengths_refusal};

use outline::{Domain, Refusal};

// How many places there are for field nodes, nodes, edges and lengths of loops.
#[derive(Clone, Copy)]
pub struct RunPlaces {
    pub field: usize,
    pub nodes: usize,
    pub edges: usize,
    pub lengths: usize,
}

// So many places of the snapshot count.
pub fn snapshot_places(snapshot: usize, loops: usize, origins: usize) -> usize
    ensures { result ≡ min (min snapshot loops) origins }
{
    snapshot.min(loops).min(origins)
}

// The places of the shortest of the lists of nodes, as many as they are: `front::node_places` counts no more than ids can number.
pub fn node_places(xs: usize, ys: usize, next: usize, prev: usize, snapshot: usize) -> usize
    ensures { result ≡ fewest xs ys next prev snapshot }
{
    xs.min(ys).min(next.min(prev)).min(snapshot)
}

// Where so many places are lent.
#[tactic(auto, using(outline::proofs::Refused::first_refused))]
pub fn check_run(
    domain: Domain<'_>,
    size: f64,
    sweeps: usize,
    places: RunPlaces,
) -> Result<(), Refusal>
    ensures { refused result
        ≡ first_of
        (first_of (refusal_for (outline_of domain.entry) size sweeps places.field)
        (sampled_refusal (outline_of domain.entry) size (min places.nodes most_nodes) places.edges))
        (lengths_refusal (outline_of domain.entry) places.lengths) }
{
    field_cross::check_field(domain, size, sweeps, places.field)?;
    front_boundary::check_front_places(domain, size, places.nodes, places.edges)?;
    if domain.lens.len() < places.lengths {
        Ok(())
    } else {
        Err(Refusal::FrontNeedsSpace)
    }
}
