//! What is told of files that were not read to their ends.
ghost use Rattle.audit_telling.specs.Exits.{IsExit, exit_of_config_fault, exit_of_fault, exit_of_feeds_refusal, exit_of_feeds_status, exit_of_refusal, exit_of_status};

use crate::exit::{Exit, told};
use audit_core::{AuditFault, AuditFiles, AuditRefusal};
use audit_feeds::FeedsRefusal;
use feeds_core::FeedsStatus;
use line_reader::ConfigFault;
use replay_core::Status;
use script_text::{LimitCause, LineCause};
use terminal_hints::Hint;

/// Tells that a line is outside the grammar, and at a terminal what it should be.
fn tell_bad_line(rt: &HostRuntime, file: &str, line: u32, cause: LineCause) -> Exit
    ensures { IsExit Exit.BadLine result }
{
    let exit = told(
        eprintln!(rt; "pegaudit: {file}: line {line}: {cause}"),
        Exit::BadLine,
    );
    Hint::BadLine { file, line, cause }.show(rt);
    exit
}

/// Tells that a line would pass a limit, and at a terminal which.
fn tell_limit_line(rt: &HostRuntime, file: &str, line: u32, which: LimitCause) -> Exit
    ensures { IsExit Exit.Limit result }
{
    let exit = told(
        eprintln!(rt; "pegaudit: {file}: line {line}: limit {which}"),
        Exit::Limit,
    );
    Hint::LimitLine { file, line, which }.show(rt);
    exit
}

/// Tells that a script could not be read, and at a terminal why.
pub fn tell_unread_script(rt: &HostRuntime, name: &str) -> Exit
    ensures { IsExit Exit.ReadFault result }
{
    let exit = told(
        eprintln!(rt; "pegaudit: {name}: could not be read"),
        Exit::ReadFault,
    );
    Hint::UnreadOf(name, name).show(rt);
    exit
}

/// Tells how the explaining of a script ended.
pub fn tell_explained(rt: &HostRuntime, name: &str, status: Status) -> Exit
    ensures { IsExit (exit_of_status status) result }
{
    match status {
        Status::Done => Exit::Done,
        Status::BadWords => Exit::BadWords,
        Status::BadLine { line, cause } => tell_bad_line(rt, name, line, cause),
        Status::LimitLine { line, which } => tell_limit_line(rt, name, line, which),
        Status::ReadFault => tell_unread_script(rt, name),
        Status::WriteFault => Exit::WriteFault,
        Status::NoMemory => Exit::NoMemory,
    }
}

/// Tells that one of the files could not be read, and at a terminal why.
fn tell_unread(rt: &HostRuntime, files: AuditFiles<'_>, name: &str) -> Exit
    ensures { IsExit Exit.ReadFault result }
{
    let exit = told(
        eprintln!(rt; "pegaudit: {name}: could not be read"),
        Exit::ReadFault,
    );
    Hint::UnreadOf(files.config, files.listing).show(rt);
    exit
}

/// Tells why a config was not read.
fn tell_config_fault(rt: &HostRuntime, files: AuditFiles<'_>, fault: ConfigFault) -> Exit
    ensures { IsExit (exit_of_config_fault fault) result }
{
    match fault {
        ConfigFault::Bad { line, cause } => tell_bad_line(rt, files.config, line, cause),
        ConfigFault::Limit { line, which } => tell_limit_line(rt, files.config, line, which),
        ConfigFault::ReadFault => tell_unread(rt, files, files.config),
        ConfigFault::NoMemory => Exit::NoMemory,
    }
}

/// Tells why a listing was not read to its end.
fn tell_fault(rt: &HostRuntime, files: AuditFiles<'_>, fault: AuditFault) -> Exit
    ensures { IsExit (exit_of_fault fault) result }
{
    let name = files.listing;
    match fault {
        AuditFault::ReadFault => tell_unread(rt, files, name),
        AuditFault::TooLarge => told(
            eprintln!(rt; "pegaudit: {name}: more than 2147483647 bytes"),
            Exit::Limit,
        ),
        AuditFault::LongLine { line } => told(
            eprintln!(rt; "pegaudit: {name}: line {line}: limit Line"),
            Exit::Limit,
        ),
        AuditFault::WriteFault => Exit::WriteFault,
        AuditFault::NoMemory => Exit::NoMemory,
    }
}

/// Tells why there is no verdict.
pub fn tell_refusal(rt: &HostRuntime, files: AuditFiles<'_>, refusal: AuditRefusal) -> Exit
    ensures { IsExit (exit_of_refusal refusal) result }
{
    match refusal {
        AuditRefusal::Config(fault) => tell_config_fault(rt, files, fault),
        AuditRefusal::SplitName => told(
            eprintln!(rt; "pegaudit: {}: a name has a space or an LF", files.config),
            Exit::BadLine,
        ),
        AuditRefusal::Listing(fault) => tell_fault(rt, files, fault),
    }
}

/// The name of a file of a run: the config is file 0, and the feeds are files 1, 2 and so on.
fn file_of<'a>(files: AuditFiles<'a>, feeds: &[&'a str], file: u32) -> &'a str {
    match (file as usize).checked_sub(1) {
        Some(place) => feeds.get(place).copied().unwrap_or(files.config),
        None => files.config,
    }
}

/// Tells why feeds were not taken.
fn tell_feeds_status(
    rt: &HostRuntime,
    files: AuditFiles<'_>,
    feeds: &[&str],
    status: FeedsStatus,
) -> Exit
    ensures { IsExit (exit_of_feeds_status status) result }
{
    match status {
        FeedsStatus::BadFeed { file, line, cause } => {
            tell_bad_line(rt, file_of(files, feeds, file), line, cause)
        }
        FeedsStatus::LimitFeed { file, line, which } => {
            tell_limit_line(rt, file_of(files, feeds, file), line, which)
        }
        FeedsStatus::Full { symbol } => told(
            eprintln!(rt;
                "pegaudit: {}: the feeds have more commands for the symbol of SYMBOL line {}, counted from 0, than its limit",
                files.config, symbol
            ),
            Exit::Limit,
        ),
        FeedsStatus::ReadFault => told(
            eprintln!(rt; "pegaudit: {} or a feed could not be read", files.config),
            Exit::ReadFault,
        ),
        FeedsStatus::Done | FeedsStatus::BadWords => Exit::BadWords,
        FeedsStatus::WriteFault => Exit::WriteFault,
        FeedsStatus::NoMemory => Exit::NoMemory,
    }
}

/// Tells why there is no verdict on a listing and its feeds.
pub fn tell_feeds_refusal(
    rt: &HostRuntime,
    files: AuditFiles<'_>,
    feeds: &[&str],
    refusal: FeedsRefusal,
) -> Exit
    ensures { IsExit (exit_of_feeds_refusal refusal) result }
{
    match refusal {
        FeedsRefusal::Feeds(status) => tell_feeds_status(rt, files, feeds, status),
        FeedsRefusal::Audit(refusal) => tell_refusal(rt, files, refusal),
    }
}
