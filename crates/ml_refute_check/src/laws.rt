// Laws about the definitions alone: empty functions, each of whose contract is a theorem.

ghost use Rattle.ml_refute_check.specs.Laws.{AcceptedIsTrue, AlikeChecked, DocumentsReadBack, OneDocument, OneVerdict, SomeDocument, SomeVerdict};
ghost use Rattle.ml_refute_check.specs.Problems.{RefutedIsUnsatisfiable};
ghost use Rattle.ml_refute_check.specs.Soundness.{AcceptedHoldsNowhere, AcceptedOrFault, NeverBoth, OneFault, RulesRise};
ghost use Rattle.ml_refute_check.specs.Findings.{OneFinding};

/// Where a refutation breaks no rule in a graph, the graph holds at no state of any structure. Asked is that the
/// refutation keeps what every one keeps (`IsRefutation`), and that graph and structure are such. All three may be of
/// any size, and how the refutation was made doesn't matter.
///
/// Does nothing when called.
pub fn accepted_holds_nowhere()
    ensures law { AcceptedHoldsNowhere }
{}

/// In a graph, a refutation is accepted or has a first bad part, and never both. It has one first bad part at most, and
/// that one breaks one lowest rule: the rules of a part rise by their numbers. So a refutation that isn't accepted has
/// exactly one first bad part, with exactly one lowest rule. Nothing is asked of the refutation.
///
/// Does nothing when called.
pub fn one_fault()
    ensures some { AcceptedOrFault }
    ensures exclusive { NeverBoth }
    ensures fault { OneFault }
    ensures lowest { RulesRise }
{}

/// Checking a refutation in a graph finds exactly one thing: that it is accepted, or its first bad part with the lowest
/// rule that this part breaks.
///
/// Does nothing when called.
pub fn one_finding()
    ensures law { OneFinding }
{}

/// Of a problem whose formula means something by its logic (in the mu-calculus: its variables are bound and positive; in
/// CTL*: it is a state formula): where a refutation, which keeps what every one keeps (`IsRefutation`), breaks no rule in
/// its graph, no admitted structure, of any number of states, has a state at which the problem holds.
///
/// Does nothing when called.
pub fn refuted_is_unsatisfiable()
    ensures { RefutedIsUnsatisfiable }
{}

/// Where a document is accepted, what it answers is true: no structure of which the logic speaks has a state at which
/// its problem holds. This asks nothing of who wrote the document, nor how.
///
/// Does nothing when called.
pub fn accepted_is_true()
    ensures { AcceptedIsTrue }
{}

/// The document that is written for a problem and a refutation shows these. Asked is that the problem's formula is
/// well-formed (`IsWellFormed`) and that the refutation keeps what every one keeps (`IsRefutation`). What a document
/// shows is such; so `migrate` loses nothing.
///
/// Does nothing when called.
pub fn documents_are_read_back()
    ensures { DocumentsReadBack }
{}

/// Of a problem and a refutation, which keeps what every one keeps (`IsRefutation`), one document is written, and no other
/// one: what the format alone says of it (`IsDocumentOf`) tells each of its bytes.
///
/// Does nothing when called.
pub fn one_document()
    ensures some { SomeDocument }
    ensures once { OneDocument }
{}

/// Checking a text finds exactly one thing: so `check` answers each exactly where it is said to come, but for want of
/// memory. What it accepts follows from the problem and the refutation alone, and not from how they are written; so it
/// accepts what `migrate` writes exactly where it accepts what was read.
///
/// Does nothing when called.
pub fn one_verdict()
    ensures some { SomeVerdict }
    ensures once { OneVerdict }
    ensures alike { AlikeChecked }
{}
