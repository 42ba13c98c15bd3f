// The public entry that judges an outline. It has no `requires`.
#![tactic(auto)]

ghost use Rattle.std.specs.Prelude.{◌≡◌, ◌↔◌, true};
ghost use Rattle.outline.specs.Outline.{outline};
ghost use Rattle.outline_sound.specs.Meaning.{SoundOutline};
ghost use Rattle.outline_sound_entry.specs.Answer.{sound_answer};

use outline::Domain;

#[repr(C)]
#[derive(Clone, Copy)]
pub struct SoundAnswer {
    pub refusal: u32,
    pub sound: bool,
}

// Whether the outline is sound; refusals 1 to 4 come first, with false.
#[unsafe(no_mangle)]
pub extern "C" fn sitjorbe_sound<'a>(
    outer: &'a [f64],
    holes: &'a [f64],
    hole_lengths: &[usize],
) -> SoundAnswer
    ensures answer { result ≡ sound_answer (outline outer.now holes.now hole_lengths.now) }
    ensures means { result.refusal ≡ 0 → (result.sound ≡ true) ↔ SoundOutline (outline outer.now holes.now hole_lengths.now) }
{
    let domain = Domain {
        outer,
        holes,
        lens: hole_lengths,
    };
    match outline_loops::check_outline(domain) {
        Err(refusal) => SoundAnswer {
            refusal: u32::from(refusal),
            sound: false,
        },
        Ok(()) => SoundAnswer {
            refusal: 0,
            sound: outline_soundness::is_sound(domain),
        },
    }
}
