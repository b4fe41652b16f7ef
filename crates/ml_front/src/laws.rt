// What holds of heads and of graphs by their definitions alone: the functions do nothing, their contracts are the
// theorems.
ghost use Rattle.std.specs.Prelude.{◌≡◌};
ghost use Rattle.ml_front.specs.Laws.{GraphsAgree, HeadOrFault, HeadRulesRise, HeadsReadBack, OneHead, OneHeadFault, SomeHead};
ghost use Rattle.ml_front.specs.declared.problem.TheConstants.{MOST_NODES};

/// The graph of a problem holds where the problem does: on every structure of which the formula's logic speaks, of any
/// number of states, at every state. The formula has to mean something by its logic: in the mu-calculus its variables have to
/// be bound and positive, a formula of CTL* has to be a state formula, and one of LTL on words has no quantifier.
pub fn agrees()
    ensures { GraphsAgree }
{}

/// A text is a head for an answer, or its head has a first bad line, exactly one of the two; it is a head in one version
/// and about one problem at most, with one rest, and has one first bad line at most. So `read_head` answers each exactly
/// where it is said to come, but for want of memory. The rules of a line rise by their numbers, so the one that is told is
/// the lowest that is broken.
pub fn one_head()
    ensures one { SomeHead }
    ensures exclusive { HeadOrFault }
    ensures head { OneHead }
    ensures fault { OneHeadFault }
    ensures lowest { HeadRulesRise }
{}

/// The head of a written document about a well-formed formula is read as it was written, in either version, whatever
/// stands behind it. So what `write_head` writes is read back.
pub fn heads_are_read_back()
    ensures { HeadsReadBack }
{}

/// The closure of a problem that is decided and checked has at most 4,096 nodes.
pub fn limits()
    ensures { MOST_NODES ≡ 4096 }
{}
