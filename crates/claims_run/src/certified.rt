//! An answer with its certificate.
ghost use Rattle.std.specs.Prelude.{◌≡◌, [], false, Some, IfOk, OnOk};
ghost use Rattle.constraint_set.specs.Facts.{IsAsRead};
ghost use Rattle.cert_text.specs.StoreLogs.{log_lines, log_faults, log_steady, log_quiet, waiting_text};
ghost use Rattle.search_log.specs.Logging.{LogGoes};
ghost use Rattle.claims_run.specs.Answering.{IsRight, IsClaimed, has_too_many};
ghost use Rattle.claims_run.specs.Certifying.{IsToldWhole, IsSettledWith};

use crate::answering::tell;
use crate::question::{Answer, Question};
use cert_text::{NoLog, StoreLog};
use command_line::Word;
use constraint_set::Problem;
use outer_store::{Store, StoreFault};
use search_log::{StepFault, store_fault};
use std::alloc::{AllocError, Global};

// Answers, and the claims are told and all in the store. That the log is the same one still is a clause of its own, since what a
// log over a store leaves of it hangs on that.
fn tell_to_end<S: Store>(
    alloc: Global,
    problem: &Problem,
    asked: Question,
    log: &mut StoreLog<S>,
) -> Result<Answer, StepFault>
    requires as_read { IsAsRead problem.now }
    requires few { has_too_many problem.now asked ≡ false }
    ensures right { IfOk result (IsRight problem.now asked) }
    ensures told { IfOk result (λ answer. IsToldWhole problem.now (IsClaimed problem.now answer) (log_lines S.state log.old) (log_lines S.state log.new)) }
    ensures log { LogGoes (λ _. false) (log_lines S.state) (log_faults S.state) (log_steady S.state) (log_quiet S.state) result log.old log.new }
    ensures steady { log_steady S.state log.old log.new }
    ensures none_waits { OnOk result (waiting_text log.new ≡ []) }
{
    let answer = tell(alloc, problem, asked, log)?;
    log.finish()?;
    Ok(answer)
}

// Answers, and the certificate is what the name then holds.
fn settle_certified<S: Store>(
    alloc: Global,
    store: &mut S,
    problem: &Problem,
    asked: Question,
    name: &str,
) -> Result<Answer, StoreFault>
    requires as_read { IsAsRead problem.now }
    requires few { has_too_many problem.now asked ≡ false }
    ensures { IsSettledWith problem.now asked (Some name.now) result (S.state store.old) (S.state store.new) }
{
    store.create(name)?;
    let mut text = Vec::new(alloc);
    let mut log = StoreLog::new(store, name, &mut text);
    match tell_to_end(alloc, problem, asked, &mut log) {
        Ok(answer) => Ok(answer),
        Err(fault) => Err(store_fault(fault)),
    }
}

// Answers without a certificate.
fn settle_bare(alloc: Global, problem: &Problem, asked: Question) -> Result<Answer, AllocError>
    requires as_read { IsAsRead problem.now }
    requires few { has_too_many problem.now asked ≡ false }
    ensures { IfOk result (IsRight problem.now asked) }
{
    match tell(alloc, problem, asked, &mut NoLog::new()) {
        Ok(answer) => Ok(answer),
        Err(_) => Err(AllocError),
    }
}

/// The answer to a question. Its certificate is written where there is a name for one.
pub(crate) fn settled<S: Store>(
    alloc: Global,
    store: &mut S,
    problem: &Problem,
    asked: Question,
    cert: &Option<Word>,
) -> Result<Answer, StoreFault>
    requires as_read { IsAsRead problem.now }
    requires few { has_too_many problem.now asked ≡ false }
    ensures { IsSettledWith problem.now asked cert.now result (S.state store.old) (S.state store.new) }
{
    match cert {
        None => Ok(settle_bare(alloc, problem, asked)?),
        Some(name) => settle_certified(alloc, store, problem, asked, name.text()),
    }
}
