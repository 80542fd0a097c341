//! A model as one word.
ghost use Rattle.std.specs.Prelude.{◌≡◌};
ghost use Rattle.verdicttext.specs.Text.{model_word};

use models::name::ModelName;

pub(crate) fn model_word(model: ModelName) -> &'static [u8]
    ensures { result.now ≡ model_word model }
{
    match model {
        ModelName::Rc20 => b"RC20",
        ModelName::Ra => b"RA",
        ModelName::Sra => b"SRA",
        ModelName::Wra => b"WRA",
        ModelName::Relaxed => b"RELAXED",
    }
}
