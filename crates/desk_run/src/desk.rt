//! The desk: sixteen slots over one problem, apart from each other.

ghost use Rattle.desk_run.specs.Desk.Apart.{SlotsStayApart};
ghost use Rattle.desk_run.specs.Desk.Talks.{SlotsAnswerAlone};

mod acts;
mod desk;
mod reply;
mod slot;

pub use desk::Desk;
pub use reply::Reply;

/// A slot's replies follow from what is asked of it alone.
pub fn slots_answer_alone()
    ensures { SlotsAnswerAlone }
{}

/// Each slot of a desk is where its own requests lead it.
pub fn slots_stay_apart()
    ensures { SlotsStayApart }
{}
