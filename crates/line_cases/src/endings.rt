//! How a small program's end is told.
ghost use Rattle.std.specs.Prelude.{◌++◌, ◌==◌, [], true, codes, decimal, not, if◌then◌else◌};

use case_text::{Told, Words};
use io_edge::MemSink;
use line_reader::{Ending, StatusText, tell};
use venue_words::NoMemory;

/// A program that ends well, at a bad number above 0, or with a write fault.
#[derive(Clone, Copy, Debug, PartialEq, Eq)]
struct End {
    bad: u32,
    lost: bool,
}

impl Ending for End {
    ghost told = { λ e. if e.lost then codes "write fault" else if e.bad == 0 then [] else codes "bad " ++ decimal e.bad };

    ghost yields = { λ e. not e.lost };

    ghost write_fault = { λ _. record { bad = 0; lost = true } };

    fn push_told(self, text: &mut StatusText) {
        if self.lost {
            text.push(b"write fault");
        } else if self.bad != 0 {
            text.push(b"bad ");
            text.push_number(u64::from(self.bad));
        }
    }

    fn does_yield(self) -> bool {
        !self.lost
    }

    fn to_write_fault(self) -> End {
        End { bad: 0, lost: true }
    }
}

/// `ending` tells what a program `sample` writes at its end and how it ends then, where its write fails or not.
pub fn play(word: &str, input: &[u8], told: &mut Told) -> Result<bool, NoMemory> {
    if word != "ending" {
        return Ok(false);
    }
    let words = Words::new(told.alloc, input)?;
    let bad = String::from_utf8_lossy(told.alloc, words.value(b"bad").unwrap_or(b"0"))?;
    let end = End {
        bad: bad.parse::<u32>().unwrap_or(0),
        lost: words.has(b"lost"),
    };
    let mut fails = Vec::new(told.alloc);
    if words.has(b"failing") {
        fails.push(1)?;
    }
    let mut err = MemSink::new(told.alloc, fails);
    let after = tell("sample", end, &mut err);
    told.push(" = ");
    told.bytes(err.bytes());
    told.push(", bad ");
    told.show(&after.bad);
    told.push(if after.lost { ", lost" } else { "" });
    Ok(true)
}
