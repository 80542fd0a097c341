//! The models by number.
ghost use Rattle.std.specs.Prelude.{◌≡◌, ◌≢◌, MatchOption};
ghost use Rattle.models.specs.declared.name.ModelName.{ModelName as Named};
ghost use Rattle.models.specs.Numbers.{model_number, model_of};

use events::plain::Plain;

/// The five models.
#[derive(Clone, Copy, PartialEq, Eq, Hash)]
pub enum ModelName {
    Rc20,
    Ra,
    Sra,
    Wra,
    Relaxed,
}

impl Plain for ModelName {
    ghost plain = { record { clones = λ x y same. same; never_fails = λ x. tt } };
}

impl ModelName {
    /// From 1 to 5.
    pub fn number(&self) -> u8
        ensures { result ≡ model_number self.now }
    {
        match self {
            ModelName::Rc20 => 1,
            ModelName::Ra => 2,
            ModelName::Sra => 3,
            ModelName::Wra => 4,
            ModelName::Relaxed => 5,
        }
    }

    /// The model with this number, if there is one.
    /// From 1 to 5.
    pub fn numbered(n: u8) -> Option<ModelName>
        ensures answers { result ≡ model_of n }
        ensures named { MatchOption result ((m : Named) → model_number m ≢ n) (λ m. model_number m ≡ n) }
    {
        match n {
            1 => Some(ModelName::Rc20),
            2 => Some(ModelName::Ra),
            3 => Some(ModelName::Sra),
            4 => Some(ModelName::Wra),
            5 => Some(ModelName::Relaxed),
            _ => None,
        }
    }
}
