//! Configs that are read from a file in memory, and why one is refused.
ghost use Rattle.std.specs.Prelude.{◌<◌, ◌^◌};

use crate::files::{MAX_BYTES, shelf};
use crate::scripts::tell_config;
use case_text::Told;
use fix_fields::number;
use io_edge::SureShelf;
use line_reader::{ConfigFault, ConfigFile, read_config};
use script_text::words::cut_word;
use venue_words::NoMemory;

fn tell_read(read: &Result<ConfigFile, ConfigFault>, told: &mut Told) {
    match read {
        Ok(file) => {
            told.value(&file.bytes);
            told.push(" bytes, ");
            tell_config(&file.config, told);
        }
        Err(fault) => told.code(fault),
    }
}

/// Tells what is read of a text of which there may be so many bytes, in pieces of each size.
fn tell_whole(most: u64, text: &[u8], told: &mut Told) -> Result<(), NoMemory>
    requires { most < 2 ^ 31 }
{
    for piece in [1usize, 7, 4096] {
        told.push("\n  pieces of ");
        told.show(&piece);
        let mut file = shelf(told.alloc, text, piece, 0)?;
        tell_read(&read_config(told.alloc, &mut file, "f", most), told);
    }
    Ok(())
}

/// Tells what is read of a text in pieces of 50 bytes where a call fails.
fn tell_failed(call: u32, text: &[u8], told: &mut Told) -> Result<(), NoMemory> {
    let mut file = shelf(told.alloc, text, 50, call)?;
    tell_read(&read_config(told.alloc, &mut file, "f", 1000), told);
    Ok(())
}

/// `config MOST TEXT` tells what a config says or why it is refused, `failed_config CALL TEXT` the same where a call fails, and
/// `no_config` where there is no file.
pub fn play(word: &str, input: &[u8], told: &mut Told) -> Result<bool, NoMemory> {
    let (front, text) = cut_word(input).unwrap_or((input, &[]));
    let front = number(front).unwrap_or(0);
    match word {
        "config" => tell_whole(u64::from(front.min(MAX_BYTES)), text, told)?,
        "failed_config" => tell_failed(front, text, told)?,
        "no_config" => {
            let mut none = SureShelf::new(Vec::new(told.alloc), 9);
            tell_read(&read_config(told.alloc, &mut none, "f", 1000), told);
        }
        _ => return Ok(false),
    }
    Ok(true)
}
