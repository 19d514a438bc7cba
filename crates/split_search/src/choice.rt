//! What is answered.
use set_family::Family;

/// Whether some family meets a problem.
#[derive(Drop)]
pub enum Choice {
    /// This one does.
    Met(Family),
    /// None does.
    Refuted,
}
