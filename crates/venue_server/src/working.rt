//! All tasks of a run at once.
ghost use Rattle.std.specs.Prelude.{◌≡◌, ℕ, ◌<◌, length, vec_len, slice_index_or, IfOk, IfSome};
ghost use Rattle.std.specs.List.{All};
ghost use Rattle.venue_words.specs.Conditions.{IsConfig};
ghost use Rattle.venue_words.specs.Floors.{setup_of};
ghost use Rattle.drop_copy.specs.Desks.{AreConfigured};

use crate::copying::{CopySession, serve_copies};
use crate::workers::{Finished, Job, Shared, serve_next, submit_quotes};
use std::rt;
use std::sync::Wait;
use std::thread::{Threads, join, map_vec};
use venue_words::{Floor, NoMemory};

/// Serves all connections at once. What came of each stands at its place.
fn work_links<R: Threads + Wait + Sync + rt::Clock, F: Floor + Send + Drop>(
    shared: &Shared<'_, R>,
    jobs: Vec<Job<F>>,
) -> Result<Vec<Finished<F>>, NoMemory>
    requires config { IsConfig shared.now.config.now }
    requires desks { shared.now.cell.now ≡ length shared.now.config.now.members }
    requires setup { All (λ job. (F.mark job.floor).setup ≡ setup_of shared.now.config.now) jobs.items }
    ensures count { IfOk result (λ finished. vec_len finished ≡ vec_len jobs) }
    ensures each { IfOk result (λ finished. (k : ℕ) (job one : _) → k < vec_len jobs
        → job ≡ slice_index_or jobs.items k job → one ≡ slice_index_or finished.items k one
        → F.mark one.floor ≡ F.mark job.floor) }
{
    let finished = map_vec(
        shared.rt,
        jobs,
        &|job: Job<F>| -> Finished<F>
            requires { IsConfig shared.now.config.now
                × (shared.now.cell.now ≡ length shared.now.config.now.members)
                × ((F.mark job.floor).setup ≡ setup_of shared.now.config.now) }
            ensures { F.mark result.floor ≡ F.mark job.floor }
        { serve_next(shared, job) },
    );
    match finished {
        Ok(finished) => Ok(finished),
        Err(_) => Err(NoMemory),
    }
}

/// Serves all connections and submits the quotes, at once; then the venue is done. The quotes' task comes last.
fn work_venue<R: Threads + Wait + Sync + rt::Clock, F: Floor + Send + Drop>(
    shared: &Shared<'_, R>,
    jobs: Vec<Job<F>>,
    quoting: F,
) -> Result<(Vec<Finished<F>>, Finished<F>), NoMemory>
    requires config { IsConfig shared.now.config.now }
    requires desks { shared.now.cell.now ≡ length shared.now.config.now.members }
    requires setup { All (λ job. (F.mark job.floor).setup ≡ setup_of shared.now.config.now) jobs.items }
    requires quotes { (F.mark quoting).setup ≡ setup_of shared.now.config.now }
    ensures count { IfOk result (λ finished. vec_len finished.0 ≡ vec_len jobs) }
    ensures each { IfOk result (λ finished. (k : ℕ) (job one : _) → k < vec_len jobs
        → job ≡ slice_index_or jobs.items k job → one ≡ slice_index_or finished.0.items k one
        → F.mark one.floor ≡ F.mark job.floor) }
    ensures quoted { IfOk result (λ finished. F.mark finished.1.floor ≡ F.mark quoting) }
{
    let (links, quoted) = join(
        shared.rt,
        move || -> Result<Vec<Finished<F>>, NoMemory>
            requires { IsConfig shared.now.config.now
                × (shared.now.cell.now ≡ length shared.now.config.now.members)
                × All (λ job. (F.mark job.floor).setup ≡ setup_of shared.now.config.now) jobs.items }
            ensures count { IfOk result (λ finished. vec_len finished ≡ vec_len jobs) }
            ensures each { IfOk result (λ finished. (k : ℕ) (job one : _) → k < vec_len jobs
                → job ≡ slice_index_or jobs.items k job → one ≡ slice_index_or finished.items k one
                → F.mark one.floor ≡ F.mark job.floor) }
        { work_links(shared, jobs) },
        move || -> Finished<F>
            requires { IsConfig shared.now.config.now
                × ((F.mark quoting).setup ≡ setup_of shared.now.config.now) }
            ensures { F.mark result.floor ≡ F.mark quoting }
        { submit_quotes(shared, quoting) },
    );
    shared.finish();
    match links {
        Ok(finished) => Ok((finished, quoted)),
        Err(_) => Err(NoMemory),
    }
}

/// Serves all connections and submits the quotes, and beside them serves the drop session, if there is one.
pub fn work_all<R: Threads + Wait + Sync + rt::Clock, F: Floor + Send + Drop>(
    shared: &Shared<'_, R>,
    jobs: Vec<Job<F>>,
    quoting: F,
    session: Option<CopySession>,
    copying: Job<F>,
) -> Result<(Vec<Finished<F>>, Finished<F>, Finished<F>), NoMemory>
    requires config { IsConfig shared.now.config.now }
    requires desks { shared.now.cell.now ≡ length shared.now.config.now.members }
    requires setup { All (λ job. (F.mark job.floor).setup ≡ setup_of shared.now.config.now) jobs.items }
    requires quotes { (F.mark quoting).setup ≡ setup_of shared.now.config.now }
    requires copies { (F.mark copying.floor).setup ≡ setup_of shared.now.config.now }
    requires members { IfSome session (λ session. AreConfigured session.desk.members shared.now.config.now) }
    ensures count { IfOk result (λ finished. vec_len finished.0 ≡ vec_len jobs) }
    ensures each { IfOk result (λ finished. (k : ℕ) (job one : _) → k < vec_len jobs
        → job ≡ slice_index_or jobs.items k job → one ≡ slice_index_or finished.0.items k one
        → F.mark one.floor ≡ F.mark job.floor) }
    ensures quoted { IfOk result (λ finished. F.mark finished.1.floor ≡ F.mark quoting) }
    ensures copied { IfOk result (λ finished. F.mark finished.2.floor ≡ F.mark copying.floor) }
{
    let (worked, copied) = join(
        shared.rt,
        move || -> Result<(Vec<Finished<F>>, Finished<F>), NoMemory>
            requires { IsConfig shared.now.config.now
                × (shared.now.cell.now ≡ length shared.now.config.now.members)
                × All (λ job. (F.mark job.floor).setup ≡ setup_of shared.now.config.now) jobs.items
                × ((F.mark quoting).setup ≡ setup_of shared.now.config.now) }
            ensures count { IfOk result (λ finished. vec_len finished.0 ≡ vec_len jobs) }
            ensures each { IfOk result (λ finished. (k : ℕ) (job one : _) → k < vec_len jobs
                → job ≡ slice_index_or jobs.items k job → one ≡ slice_index_or finished.0.items k one
                → F.mark one.floor ≡ F.mark job.floor) }
            ensures quoted { IfOk result (λ finished. F.mark finished.1.floor ≡ F.mark quoting) }
        { work_venue(shared, jobs, quoting) },
        move || -> Finished<F>
            requires { IsConfig shared.now.config.now
                × ((F.mark copying.floor).setup ≡ setup_of shared.now.config.now)
                × IfSome session (λ session. AreConfigured session.desk.members shared.now.config.now) }
            ensures { F.mark result.floor ≡ F.mark copying.floor }
        { serve_copies(shared, session, copying) },
    );
    match worked {
        Ok((finished, quoted)) => Ok((finished, quoted, copied)),
        Err(_) => Err(NoMemory),
    }
}
