//! How a program ends, and what is told of it.
ghost use Rattle.std.specs.Prelude.{◌≡◌, ◌≤◌, ◌++◌, ℕ, Bool, List, [], length};
ghost use Rattle.line_reader.specs.Endings.{Told, line_of, after_failure};

use crate::status_text::StatusText;
use io_edge::Sink;

/// How a run of a program ended.
pub trait Ending: Copy {
    /// What is told of it behind the program's name, or nothing.
    ghost told: { Self → List ℕ };

    /// It yields to a failed put of its text.
    ghost yields: { Self → Bool };

    /// The write fault that comes in its place.
    ghost write_fault: { Self → Self };

    /// Appends what is told of it. The text holds the program's name.
    fn push_told(self, text: &mut StatusText)
        requires { length text.old ≤ 18 }
        ensures { text.new ≡ text.old ++ told self };

    /// Whether it yields to a failed put of its text.
    fn does_yield(self) -> bool
        ensures { result ≡ yields self };

    /// The write fault that comes in its place.
    fn to_write_fault(self) -> Self
        ensures { result ≡ write_fault self };
}

/// What is told of a status, as its `Display` writes it.
pub fn told_text<S: Ending>(status: S) -> StatusText
    ensures { result ≡ S.told status }
{
    let mut text = StatusText::new();
    status.push_told(&mut text);
    text
}

/// Puts what is told of a status, once, and gives the status that this makes of it. Where nothing is told no call is made.
pub fn tell<S: Ending, E: Sink>(program: &str, status: S, err: &mut E) -> S
    requires { length program.now ≤ 16 }
    ensures told { Told (line_of program.now (S.told status)) (after_failure (S.yields status) status (S.write_fault status))
        status result (E.told err.old) (E.told err.new) (E.faults err.old) (E.faults err.new) }
    ensures quiet { S.told status ≡ [] → err.new ≡ err.old }
    ensures later { E.faults err.old ≤ E.faults err.new }
{
    let mut text = StatusText::new();
    text.push(program.as_bytes());
    text.push(b": ");
    let before = text.len();
    status.push_told(&mut text);
    if text.len() == before {
        return status;
    }
    match text.put_line(err) {
        Ok(()) => status,
        Err(_) if status.does_yield() => status.to_write_fault(),
        Err(_) => status,
    }
}
