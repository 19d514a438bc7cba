//! Requests are handled one after another, and the reply to each is put.
ghost use Rattle.std.specs.Prelude.{◌≡◌, All};
ghost use Rattle.desk_run.specs.Script.Requests.{IsRequest};
ghost use Rattle.desk_run.specs.Desk.Desks.{all_closed};
ghost use Rattle.desk_run.specs.Steps.{ArePut, IsServedOut};

use crate::desk::Desk;
use crate::replies::{put_reply, put_served};
use crate::script::DeskRequest;
use constraint_set::Problem;
use outer_store::{Sink, StoreFault};
use std::alloc::Global;

// Handles requests in order, and puts each reply before the next request is handled. Where memory is wanting for a request, its
// reply says so, and the next one is handled.
fn put_replies<W: Sink>(
    alloc: Global,
    out: &mut W,
    desk: &mut Desk,
    requests: &[DeskRequest],
) -> Result<(), StoreFault>
    requires closed { desk.old ≡ all_closed desk.old.problem }
    requires fit { All (IsRequest desk.old.problem) requests.now }
    ensures { ArePut desk.old.problem requests.now result (W.state out.old) (W.state out.new) }
{
    'requests: for request in requests {
        let reply = desk.handle(request);
        put_reply(alloc, out, request, &reply)?;
    }
    Ok(())
}

/// Serves requests at a new desk of a problem: puts their replies, and how many there are.
pub(crate) fn serve_all<W: Sink>(
    alloc: Global,
    out: &mut W,
    problem: Problem,
    requests: &[DeskRequest],
) -> Result<(), StoreFault>
    requires { All (IsRequest problem) requests.now }
    ensures { IsServedOut problem requests.now result (W.state out.old) (W.state out.new) }
{
    let mut desk = Desk::new(alloc, problem)?;
    put_replies(alloc, out, &mut desk, requests)?;
    put_served(alloc, out, requests.len())
}
