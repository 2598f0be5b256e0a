// A board that is known to be sound.
ghost use Rattle.model.proofs.SoundnessTheorems.{SoundState};

// The bytes of a sound board. What it says stands in the methods: `tables` has where its numbers stand, `records` single fields, `lookups` rows and rights,
// `refusals` what refuses a sender.
#[derive(Clone, Copy)]
pub struct SoundBoard<'a> {
    pub bytes: &'a [u8],
    pub ghost sound: { SoundState bytes.now },
}
