//! What holds of the definitions.

ghost use Rattle.schc_ids.specs.Texts.{TextsName};

/// The text of a field's name names that field, and no other text does.
pub fn texts_name_their_fields()
    ensures { TextsName }
{}
