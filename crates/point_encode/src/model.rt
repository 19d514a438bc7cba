//! What certificates and queries both speak of: the given clauses of a problem by number, the selectors of a prefix, and
//! needs by number.

ghost use Rattle.point_encode.specs.Model.Laws.{ClausesArePoints, NeedsAreLiterals, OneShapeOneList};

/// Bits that meet the given clauses are points, and points are such bits.
pub fn clauses_are_points()
    ensures { ClausesArePoints }
{}

/// A need's literals say that a point is in it.
pub fn needs_are_literals()
    ensures { NeedsAreLiterals }
{}

/// Problems of one shape have the same given clauses.
pub fn one_shape_one_list()
    ensures { OneShapeOneList }
{}
