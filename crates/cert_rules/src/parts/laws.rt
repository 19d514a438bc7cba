//! A law of the certificates of listings.
ghost use Rattle.cert_rules.specs.Parts.Certs.{CertLinesAreNodes};

use crate::lines_are_nodes;

/// The lines of the tree of a listing's certificate stand, one each, at exactly the nodes that are a prefix of its start or not
/// below it, and below its end.
pub fn cert_lines_are_nodes()
    ensures { CertLinesAreNodes }
{
    lines_are_nodes();
}
