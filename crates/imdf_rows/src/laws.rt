//! Laws of items and of their rows.

ghost use Rattle.imdf_rows.specs.Laws.{ItemsOfTexts, HasItsLabels, TagsOfRows, DoorsOfRows, PassagesOfRows};

/// Where the texts of a feature file are UTF-8, so are those of its items.
pub fn items_have_texts_law()
    ensures { ItemsOfTexts }
{}

/// The labels of a name: tags ascend strictly by bytes, and a label is there exactly where its tag is a member of the
/// name, with the last text of that tag.
pub fn labels_law()
    ensures { HasItsLabels }
{}

/// The tags of labels ascend strictly in each row.
pub fn tags_law()
    ensures { TagsOfRows }
{}

/// No door is both revolving and a turnstile.
pub fn doors_law()
    ensures { DoorsOfRows }
{}

/// A relationship whose category makes no passage has no kind: no relationship's kind is that of a floor.
pub fn passages_law()
    ensures { PassagesOfRows }
{}
