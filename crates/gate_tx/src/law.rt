ghost use Rattle.gate_tx.specs.Laws.{EachHasOneText, EachTextIsOfOne, TextsStandApart, StrippedFormsStandApart, StrippedFormsSpendTheSame, TextsAreReadBack, DecodedIsSpelled, CutsAreShort, MoreIsTrailing, LongIsTooLarge, EmptyWitnessesAreRefused, IdsAreReadBack};

/// That a transaction has one text and a text is of one transaction, and that no text begins a
/// different text.
pub fn texts_stand_apart()
    ensures one { EachHasOneText }
    ensures of_one { EachTextIsOfOne }
    ensures apart { TextsStandApart }
{}

/// That two transactions have the same form without witnesses exactly if they are equal but for
/// their witnesses, and that they then spend the same outpoints in the same order.
pub fn stripped_forms_stand_apart()
    ensures apart { StrippedFormsStandApart }
    ensures spend { StrippedFormsSpendTheSame }
{}

/// That the text of a transaction reads back as it, and that bytes read as a transaction exactly
/// if they are its text.
pub fn texts_are_read_back()
    ensures back { TextsAreReadBack }
    ensures spelled { DecodedIsSpelled }
{}

/// Which fault `read_tx` answers to a text that is cut, to one with bytes behind it, to more bytes
/// than a text has, and to the form with flag 1 if each witness is empty.
pub fn faults_are_told()
    ensures cut { CutsAreShort }
    ensures more { MoreIsTrailing }
    ensures long { LongIsTooLarge }
    ensures empty { EmptyWitnessesAreRefused }
{}

/// That an id reads back from what is printed of it.
pub fn ids_are_read_back()
    ensures { IdsAreReadBack }
{}
