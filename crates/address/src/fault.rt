//! The refusal of this layer.
ghost use Rattle.std.specs.Prelude.{◌≡◌};
ghost use Rattle.address.specs.Meaning.{number_of};

/// The bytes are no lawful address: refusal 23.
#[derive(Clone, Copy)]
pub struct Unlawful;

impl Unlawful {
    /// The number of the refusal.
    pub fn number(self) -> u8
        ensures { result ≡ number_of self }
    {
        23
    }
}
