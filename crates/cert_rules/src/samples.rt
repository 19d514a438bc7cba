//! Small certificates: what the definitions answer to them, by computing.

ghost use Rattle.cert_rules.specs.Samples.{PartsOfAListing, NothingIsAllowed, NoPointIsLeft, NeedsAreForced, HeadersAreTold, NodesComeInOrder, WorldsAreShown, ClaimsAreSettled, ClaimsAreRefused, DownAndBack, SplitPairsBranch, FaultsComeByLine};

/// Listings of two concepts' worlds.
pub fn parts_of_a_listing()
    ensures { PartsOfAListing }
{}

/// A pair that allows nothing.
pub fn nothing_is_allowed()
    ensures { NothingIsAllowed }
{}

/// A need without a point.
pub fn no_point_is_left()
    ensures { NoPointIsLeft }
{}

/// Needs out of range, and needs that are not forced.
pub fn needs_are_forced()
    ensures { NeedsAreForced }
{}

/// First lines of another problem.
pub fn headers_are_told()
    ensures { HeadersAreTold }
{}

/// Lines about another node than the expected one.
pub fn nodes_come_in_order()
    ensures { NodesComeInOrder }
{}

/// Families that show no world.
pub fn worlds_are_shown()
    ensures { WorldsAreShown }
{}

/// Claims that hold, that fail, and that are left.
pub fn claims_are_settled()
    ensures { ClaimsAreSettled }
{}

/// Claims that are refused.
pub fn claims_are_refused()
    ensures { ClaimsAreRefused }
{}

/// A tree of three pairs.
pub fn down_and_back()
    ensures { DownAndBack }
{}

/// A tree over the one split pair of a subject.
pub fn split_pairs_branch()
    ensures { SplitPairsBranch }
{}

/// Rejections beside faults of the text.
pub fn faults_come_by_line()
    ensures { FaultsComeByLine }
{}
