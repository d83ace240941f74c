//! Names that stand once in a list.
ghost use Rattle.std.specs.Prelude.{◌≡◌, bytes_eq, map, option_map};
ghost use Rattle.std.specs.List.{list_any};
ghost use Rattle.up_canon.specs.Names.{first_repeated as first_repeated_name, are_distinct as are_distinct_names, hardware_fits as hardware_fits_limits};

use crate::file_name::FileName;
use crate::ident::Ident;
use crate::text::Text;

/// How many kinds of hardware an image may be for.
const MAX_HARDWARE: usize = 16;

/// What is known by a name.
pub trait Named {
    ghost use Rattle.std.specs.Prelude.{ℕ, List};

    /// The bytes of its name.
    ghost name_of: { Self → List ℕ };

    /// Its name.
    fn name(&self) -> &str
        ensures { result.now ≡ name_of self.now };
}

impl Named for Ident {
    ghost name_of = { λ a. a };

    fn name(&self) -> &str {
        self.text()
    }
}

impl Named for FileName {
    ghost name_of = { λ a. a };

    fn name(&self) -> &str {
        self.text()
    }
}

impl Named for Text {
    ghost name_of = { λ a. a };

    fn name(&self) -> &str {
        self.as_str()
    }
}

/// An item of the first name to come a second time; which of the items of that name isn't said.
pub fn first_repeated<T: Named>(items: &[T]) -> Option<&T>
    ensures { option_map (λ x. T.name_of x.now) result ≡ first_repeated_name (map T.name_of items.now) }
{
    for (i, item) in items.iter().enumerate() {
        if has_name(&items[..i], item.name()) {
            return Some(item);
        }
    }
    None
}

/// Whether no name stands twice.
pub fn are_distinct<T: Named>(items: &[T]) -> bool
    ensures { result ≡ are_distinct_names (map T.name_of items.now) }
{
    first_repeated(items).is_none()
}

/// Whether an item has the name.
pub fn has_name<T: Named>(items: &[T], name: &str) -> bool
    ensures { result ≡ list_any (λ x. bytes_eq name.now (T.name_of x)) items.now }
{
    items.iter().any(|item| name == item.name())
}

/// Whether these may be the hardware of an image: 1 to 16 names, none twice.
#[tactic(auto, using(crate::proofs::Repeated::names_themselves))]
pub fn hardware_fits(hardware: &[Ident]) -> bool
    ensures { result ≡ hardware_fits_limits hardware.now }
{
    hardware.len() >= 1 && hardware.len() <= MAX_HARDWARE && are_distinct(hardware)
}
