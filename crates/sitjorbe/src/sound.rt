ghost use Rattle.std.specs.Prelude.{◌≡◌, ◌↔◌, true};
ghost use Rattle.outline.specs.Outline.{outline};
ghost use Rattle.outline_sound.specs.Meaning.{SoundOutline};
ghost use Rattle.outline_sound_entry.specs.Answer.{sound_answer};

use outline_sound_entry::SoundAnswer;

// Whether the outline is sound; refusals 1 to 4 come first, with false.
#[unsafe(no_mangle)]
pub extern "C" fn sitjorbe_sound<'a>(
    outer: &'a [f64],
    holes: &'a [f64],
    hole_lengths: &[usize],
) -> SoundAnswer
    ensures answer { result ≡ sound_answer (outline outer.now holes.now hole_lengths.now) }
    ensures means { result.refusal ≡ 0 → (result.sound ≡ true) ↔ SoundOutline (outline outer.now holes.now hole_lengths.now) }
{
    outline_sound_entry::sitjorbe_sound(outer, holes, hole_lengths)
}
