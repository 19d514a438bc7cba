//! Laws of the definitions.

ghost use Rattle.cert_check.specs.Laws.{AcceptedBytesShowAll, WrittenIsAccepted, WrittenClaimsAreAccepted};

/// The law that bytes which are accepted as a listing give each world its family, and each missing table its refutation.
pub fn law_accepted_bytes_show_all()
    ensures { AcceptedBytesShowAll }
{}

/// The law that lines which keep up with a listing, and an end where the writer stands, are accepted as the listing up to there.
pub fn law_written_is_accepted()
    ensures { WrittenIsAccepted }
{}

/// The law that lines which keep up with a list of claims, and `done`, are accepted with just these claims.
pub fn law_written_claims_are_accepted()
    ensures { WrittenClaimsAreAccepted }
{}
