//! Laws of the definitions. Each function does nothing: its contract is the law.
ghost use Rattle.std.specs.Prelude.{◌≡◌, ◌<◌, ℕ, List, [], take, Ok};
ghost use Rattle.java_props.specs.Writing.{value_text};
ghost use Rattle.blob_properties.specs.Plain.{IsPlain};
ghost use Rattle.blob_properties.specs.Props.{Props, IsProps};
ghost use Rattle.blob_properties.specs.FromPairs.{props_of};
ghost use Rattle.blob_properties.specs.Readable.{HasRoom, Readable, readable_of};
ghost use Rattle.blob_properties.specs.ToPairs.{entries_of};

/// The pairs of properties say these properties.
pub fn pairs_say_the_same()
    ensures { (props : Props) → IsProps props → props_of (entries_of props) ≡ Ok props }
{}

/// A readable blob has room for a mark, and so has one without other pairs.
pub fn there_is_room()
    ensures readable { (text : List ℕ) (props : Props) → Readable text props → HasRoom props }
    ensures own { (props : Props) → IsProps props → props.others ≡ [] → HasRoom props }
{}

/// Whether a text is readable, and what it says, is seen from its first 65,537 bytes.
pub fn the_prefix_is_enough()
    ensures { (text : List ℕ) (n : ℕ) → 65536 < n → readable_of (take n text) ≡ readable_of text }
{}

/// A value of printing ASCII, without a space at its beginning and without `\`, `#`, `!`, `=` and `:`, is written as it is.
pub fn plain_values_stay()
    ensures { (text : List ℕ) → IsPlain text → value_text text ≡ text }
{}
