ghost use Rattle.std.specs.Prelude.{◌≡◌, ◌≤◌, true};
ghost use Rattle.names.specs.Names.{storable};
ghost use Rattle.short_text.specs.Texts.{text_of};

use short_text::Short;

/// A name with a value, which can be stored, in memory of its own. The value may be empty: that unsets.
#[derive(Clone, Copy)]
pub struct Pair {
    pub(crate) name: Short<16>,
    pub(crate) value: Short<64>,
    ghost name_fits: { name.len ≤ 16 },
    ghost value_fits: { value.len ≤ 64 },
    ghost pair: { storable (text_of 16 name) (text_of 64 value) ≡ true },
}
