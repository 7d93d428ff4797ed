//! Laws about the definitions alone: each is the clause of a function that does nothing.
ghost use Rattle.lp_upf_words.specs.Laws.{BytesComeBack, EachHasElements, ElementsAreShort, EachHasWords, LeavesThere, OneElements, OneOutcome};

/// Each text has words, up to its end or to where it leaves the form.
pub fn words_are_found()
    ensures { EachHasWords }
{}

/// A text has its words, and leaves the form at its place, in one way.
pub fn one_list_of_words()
    ensures { OneOutcome }
{}

/// A text leaves the form where no text of the form goes on in the same way.
pub fn words_leave_at_their_place()
    ensures { LeavesThere }
{}

/// The content of each word has elements as a list, in one way; it is the bytes that the word was read of, and they are
/// no longer than a file where it is not.
pub fn one_list_of_elements()
    ensures found { EachHasElements }
    ensures once { OneElements }
    ensures bytes { BytesComeBack }
    ensures short { ElementsAreShort }
{}
