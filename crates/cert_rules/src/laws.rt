//! What accepted certificates show: laws, each the contract of a function with an empty body.

ghost use Rattle.cert_rules.specs.Laws.{AcceptedIsTheListing, AcceptedClaimsAreSo, AcceptedIsSo, MissingTablesAreRefuted};
ghost use Rattle.cert_rules.specs.ClaimWriting.{ClaimsPutKeepUp};
ghost use Rattle.cert_rules.specs.FromTheEnd.{FoundFromTheEnd};
ghost use Rattle.cert_rules.specs.NodeProblems.{ChildrenNarrow};
ghost use Rattle.cert_rules.specs.Selected.{AskedByLiteral};
ghost use Rattle.cert_rules.specs.Shape.{AcceptedClaimsHaveTrees, AcceptedIsATree};
ghost use Rattle.cert_rules.specs.Showing.{AcceptedShowsAll};
ghost use Rattle.cert_rules.specs.ShownNodes.{ExpectedIsNext, WalkedIsNext, LinesAreNodes};
ghost use Rattle.cert_rules.specs.Writing.{PutKeepsUp, ToldStaysUp};

/// The worlds of an accepted listing are exactly those between its two positions.
pub fn accepted_is_the_listing()
    ensures { AcceptedIsTheListing }
{}

/// An accepted listing is a tree.
pub fn accepted_is_a_tree()
    ensures { AcceptedIsATree }
{}

/// A claim of an accepted list that no family meets its subject has its tree there.
pub fn accepted_claims_have_trees()
    ensures { AcceptedClaimsHaveTrees }
{}

/// Accepted claims are so.
pub fn accepted_claims_are_so()
    ensures { AcceptedClaimsAreSo }
{}

/// What an accepted certificate says is so, whatever the kinds of faults of its text.
pub fn accepted_is_so<K>()
    ensures { AcceptedIsSo K }
{}

/// A table that an accepted listing leaves out has its refutation there.
pub fn missing_tables_are_refuted()
    ensures { MissingTablesAreRefuted }
{}

/// Each world of an accepted listing has its family there, and each other table its refutation.
pub fn accepted_shows_all<K>()
    ensures { AcceptedShowsAll K }
{}

/// The position that is expected next is the next node.
pub fn expected_is_next()
    ensures { ExpectedIsNext }
{}

/// The next node in the words of a walk.
pub fn walked_is_next()
    ensures { WalkedIsNext }
{}

/// The lines of an accepted listing stand at exactly the nodes that it shows.
pub fn lines_are_nodes()
    ensures { LinesAreNodes }
{}

/// What is written at the expected node keeps the listing valid.
pub fn put_keeps_up()
    ensures { PutKeepsUp }
{}

/// The next position, as a walk with one path finds it.
pub fn found_from_the_end()
    ensures { FoundFromTheEnd }
{}

/// What a log tells stays a valid listing, line by line.
pub fn told_stays_up()
    ensures { ToldStaysUp }
{}

/// What is written of claims keeps their list valid.
pub fn claims_put_keep_up()
    ensures { ClaimsPutKeepUp }
{}

/// What must be true where a point is in a need, literal by literal.
pub fn asked_by_literal()
    ensures { AskedByLiteral }
{}

/// A node's problem is that of its parent with one pair narrowed.
pub fn children_narrow()
    ensures { ChildrenNarrow }
{}
