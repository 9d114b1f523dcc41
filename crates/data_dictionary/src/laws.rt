//! Laws of the dictionaries.
ghost use Rattle.data_dictionary.specs.Laws.{EachRowIsSaid, EachTableIsStated, NamesStateFields, TypesAreApart, ValuesAreRead};
ghost use Rattle.data_dictionary.specs.Layout.{application_tags, transport_tags};

/// Law call (docs/ARCHITECTURE.md): the lines of each table state each of its rows once, in order, with its tag,
/// whether it is required, and its group.
pub fn each_row_is_said()
    ensures { EachRowIsSaid }
{}

/// Law call (docs/ARCHITECTURE.md): a type that neither dictionary lists has no table, and none is listed twice.
pub fn each_table_is_stated()
    ensures { EachTableIsStated }
{}

/// Law call (docs/ARCHITECTURE.md): the types that the transport dictionary lists are the session's own, and none that
/// the application dictionary lists is.
#[tactic(auto, unfolding(crate::specs::MessageTypes::session_types, crate::specs::MessageTypes::application_types))]
pub fn types_are_apart()
    ensures { TypesAreApart }
{}

/// Law call (docs/ARCHITECTURE.md): no tag and no name of a field occurs twice in a dictionary, and each field has a
/// name, so a name determines its tag.
pub fn names_state_fields()
    ensures transport { NamesStateFields transport_tags }
    ensures application { NamesStateFields application_tags }
{}

/// Law call (docs/ARCHITECTURE.md): each value that a dictionary lists for a field is read, in each table that has the
/// field.
pub fn values_are_read()
    ensures { ValuesAreRead }
{}
