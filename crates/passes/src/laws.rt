//! What follows from the definitions alone. Each function has an empty body: its contract is the law.

ghost use Rattle.passes.specs.Owed.{DoneOwesNothing, RoundsCover};
ghost use Rattle.passes.specs.Spelled.{ChangesAreListed, DocumentsArePushed, RevisionsAreCompared, RevisionsAreOpened};
ghost use Rattle.passes.specs.Told.{ComparisonsAreTrue, ListingsAreTrue, OpeningsAreTrue, PushesAreTrue};

/// Where a pass's call for changes is answered with 200, the answer is the changes after that sequence,
/// with all leaves, and at most so many, of the database that the pass names.
pub fn changes_are_listed()
    ensures { ChangesAreListed }
{}

/// Where a pass's call to compare revisions is answered with 200, the answer says which of them the
/// database that the pass names doesn't know.
pub fn revisions_are_compared()
    ensures { RevisionsAreCompared }
{}

/// Where a pass's call to open revisions of a document is answered with 200, the answer is those
/// revisions of that document in the database that the pass names.
pub fn revisions_are_opened()
    ensures { RevisionsAreOpened }
{}

/// Where a pass's push is answered with 201, each document was judged in the database that the pass
/// names, as one that brings its revision along.
pub fn documents_are_pushed()
    ensures { DocumentsArePushed }
{}

/// A reply to a pass's call for changes that the pass takes in names the leaves of the source as it is.
pub fn listings_are_true()
    ensures { ListingsAreTrue }
{}

/// A reply to a pass's call to compare revisions that the pass takes in tells of all that the target
/// doesn't know.
pub fn comparisons_are_true()
    ensures { ComparisonsAreTrue }
{}

/// Of the revisions in a reply to a pass's call to open them that the pass takes in, each came as a
/// document or is reported.
pub fn openings_are_true()
    ensures { OpeningsAreTrue }
{}

/// Of the documents of a pass's push whose reply the pass takes in, each is known at the target
/// afterwards or is reported as a failure.
pub fn pushes_are_true()
    ensures { PushesAreTrue }
{}

/// A pass that writes its checkpoints, or is done, has settled each leaf that its source had when it was
/// listed, of the documents whose sequence is above the start and not above the end of the list.
pub fn rounds_cover_what_they_list()
    ensures { RoundsCover }
{}

/// A pass that is done has settled each leaf that its source had when it was listed last, of the
/// documents whose sequence is above the start.
pub fn done_owes_nothing()
    ensures { DoneOwesNothing }
{}
