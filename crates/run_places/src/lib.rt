// How much to lend: the nodes of the field and of the sampled outline, as refusals 9 and 10 count them.
#![tactic(auto)]

ghost use Rattle.std.specs.Prelude.{◌≡◌};
ghost use Rattle.outline.specs.Outline.{outline, outline_of};
ghost use Rattle.field_cross.specs.Field.{drawn_refusal};
ghost use Rattle.run_places.specs.Needed.{places_answer, PlacesGiven};

use outline::Domain;

// `refusal` is the refusal's number, 0 where nothing is refused; on a refusal both counts are 0.
#[repr(C)]
#[derive(Clone, Copy, Default)]
pub struct PlacesAnswer {
    pub refusal: u32,
    pub field_nodes: usize,
    pub sampled_nodes: usize,
}

// Of an outline and a size that 1 to 7 let pass.
fn count_places(domain: Domain<'_>, size: f64) -> PlacesAnswer
    requires { drawn_refusal (outline_of domain) size ≡ 0 }
    ensures { result ≡ places_answer (outline_of domain.entry) size }
{
    let grid = field_cross::grid_of(field_cross::bounds_of(domain), size);
    let sampled = front_boundary::sampled_count(domain, size);
    PlacesAnswer {
        refusal: 0,
        field_nodes: grid.nx * grid.ny,
        sampled_nodes: sampled as usize,
    }
}

// The places that a run of this outline and size can't do without. Quads, and the nodes and edges that they add, need more.
#[unsafe(no_mangle)]
pub extern "C" fn sitjorbe_places<'a>(
    outer: &'a [f64],
    holes: &'a [f64],
    hole_lengths: &[usize],
    size: f64,
) -> PlacesAnswer
    ensures { PlacesGiven (outline outer.now holes.now hole_lengths.now) size result }
{
    let domain = Domain {
        outer,
        holes,
        lens: hole_lengths,
    };
    match field_cross::check_drawn(domain, size) {
        Err(refusal) => PlacesAnswer {
            refusal: u32::from(refusal),
            ..PlacesAnswer::default()
        },
        Ok(()) => count_places(domain, size),
    }
}
