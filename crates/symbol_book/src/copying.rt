//! Copies of reports.
ghost use Rattle.std.specs.Prelude.{◌≡◌, ◌==◌, IfOk, filter};
ghost use Rattle.venue_words.specs.Journals.{reports_of};

use std::alloc::{AllocError, Global};
use venue_words::{Execution, Id, Kind, Report, View};

fn copy_of_view(alloc: Global, view: &View) -> Result<View, AllocError>
    ensures { IfOk result (λ copy. copy ≡ view.now) }
{
    Ok(View {
        first: view.first,
        id: view.id.copy(alloc)?,
        side: view.side,
        quantity: view.quantity,
        pegged: view.pegged,
        limit: view.limit,
        cum: view.cum,
        notional: view.notional,
        live: view.live,
    })
}

fn copy_of_orig(alloc: Global, orig: &Option<Id>) -> Result<Option<Id>, AllocError>
    ensures { IfOk result (λ copy. copy ≡ orig.now) }
{
    match orig {
        Some(orig) => {
            let copy = orig.copy(alloc)?;
            Ok(Some(copy))
        }
        None => Ok(None),
    }
}

fn copy_of_execution(alloc: Global, execution: &Execution) -> Result<Execution, AllocError>
    ensures { IfOk result (λ copy. copy ≡ execution.now) }
{
    match execution {
        Execution::Accepted => Ok(Execution::Accepted),
        Execution::Traded { quantity, price } => Ok(Execution::Traded {
            quantity: *quantity,
            price: *price,
        }),
        Execution::Canceled { orig } => {
            let orig = copy_of_orig(alloc, orig)?;
            Ok(Execution::Canceled { orig })
        }
        Execution::Replaced { orig } => {
            let orig = orig.copy(alloc)?;
            Ok(Execution::Replaced { orig })
        }
        Execution::Status => Ok(Execution::Status),
    }
}

fn copy_of_kind(alloc: Global, kind: &Kind) -> Result<Kind, AllocError>
    ensures { IfOk result (λ copy. copy ≡ kind.now) }
{
    match kind {
        Kind::Order { view, execution } => Ok(Kind::Order {
            view: copy_of_view(alloc, view)?,
            execution: copy_of_execution(alloc, execution)?,
        }),
        Kind::Rejected {
            id,
            side,
            quantity,
            rule,
        } => Ok(Kind::Rejected {
            id: id.copy(alloc)?,
            side: *side,
            quantity: *quantity,
            rule: *rule,
        }),
        Kind::Unknown { id, side } => Ok(Kind::Unknown {
            id: id.copy(alloc)?,
            side: *side,
        }),
        Kind::Refused {
            id,
            orig,
            order,
            request,
            rule,
        } => Ok(Kind::Refused {
            id: id.copy(alloc)?,
            orig: orig.copy(alloc)?,
            order: *order,
            request: *request,
            rule: *rule,
        }),
    }
}

fn copy_of_report(alloc: Global, report: &Report) -> Result<Report, AllocError>
    ensures { IfOk result (λ copy. copy ≡ report.now) }
{
    let kind = copy_of_kind(alloc, &report.kind)?;
    Ok(Report {
        event: report.event,
        place: report.place,
        member: report.member,
        moment: report.moment,
        kind,
    })
}

/// Copies of a member's reports.
fn reports_to(alloc: Global, member: u32, reports: &[Report]) -> Result<Vec<Report>, AllocError>
    ensures { IfOk result (λ copies. copies.items ≡ filter (λ report. report.member == member) reports.now) }
{
    let mut copies = Vec::new(alloc);
    for report in reports {
        if report.member == member {
            let copy = copy_of_report(alloc, report)?;
            copies.push(copy)?;
        }
    }
    Ok(copies)
}

/// Copies of a member's reports from a position on.
pub fn reports_after(
    alloc: Global,
    member: u32,
    from: u32,
    reports: &[Report],
) -> Result<Vec<Report>, AllocError>
    ensures { IfOk result (λ copies. copies.items ≡ reports_of member from reports.now) }
{
    let from = from as usize;
    if from < reports.len() {
        reports_to(alloc, member, &reports[from..])
    } else {
        Ok(Vec::new(alloc))
    }
}
