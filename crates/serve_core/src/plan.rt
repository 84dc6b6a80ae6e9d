//! What the words of a run ask for.
ghost use Rattle.std.specs.Prelude.{◌≡◌, ◌≤◌, Err, None, Some, map, IfOk, IfSome, MatchOption};
ghost use Rattle.program_words.specs.Words.{texts};
ghost use Rattle.serve_core.specs.Plans.{connections_of, form_in, form_of, plan_in, plan_of};

use fix_fields::number;
use program_words::{WordFault, read_words};
use std::alloc::{AllocError, Global};

/// The most connections of a run.
const MOST_CONNECTIONS: u32 = 64;

/// What the words of a run ask for.
#[derive(Debug, Drop)]
pub struct ServePlan {
    /// The name of the config's file.
    pub config: String,
    /// The address at which connections are taken.
    pub address: String,
    /// How many connections are served, from 1 to 64.
    pub connections: u32,
    /// The name of a file of quotes.
    pub quotes: Option<String>,
}

/// The words of a run in their places.
#[derive(Clone, Copy)]
struct Form<'a> {
    config: &'a str,
    address: &'a str,
    connections: u32,
    quotes: Option<&'a str>,
}

/// A number of connections: from 1 to 64, in decimal digits without a leading zero.
fn connections(word: &str) -> Option<u32>
    ensures value { result ≡ connections_of word.now }
    ensures few { IfSome result (λ count. (1 ≤ count) × (count ≤ 64)) }
{
    let digits = word.as_bytes();
    if digits.first() == Some(&b'0') {
        return None;
    }
    match number(digits) {
        Some(count) if 1 <= count && count <= MOST_CONNECTIONS => Some(count),
        _ => None,
    }
}

/// The form of the words that remain.
fn form_of<'a>(words: &[&'a str]) -> Option<Form<'a>>
    ensures value { MatchOption result (form_of (map (λ word. word.now) words.now) ≡ None)
        (λ form. form_of (map (λ word. word.now) words.now) ≡ Some (form_in form)) }
    ensures few { IfSome result (λ form. (1 ≤ form.connections) × (form.connections ≤ 64)) }
{
    let (config, address, count, quotes) = match words {
        [config, address, count] => (*config, *address, *count, None),
        [config, address, count, quotes] => (*config, *address, *count, Some(*quotes)),
        _ => return None,
    };
    let connections = connections(count)?;
    Some(Form {
        config,
        address,
        connections,
        quotes,
    })
}

/// A plan of its own words.
fn plan_of(alloc: Global, form: &Form<'_>) -> Result<ServePlan, AllocError>
    ensures plan { IfOk result (λ plan. plan_in plan ≡ form_in form.now) }
    ensures connections { IfOk result (λ plan. plan.connections ≡ form.now.connections) }
{
    let config = String::from_str(alloc, form.config)?;
    let address = String::from_str(alloc, form.address)?;
    let quotes = match form.quotes {
        Some(name) => Some(String::from_str(alloc, name)?),
        None => None,
    };
    Ok(ServePlan {
        config,
        address,
        connections: form.connections,
        quotes,
    })
}

/// What the words behind the program's name ask for: a config, an address and a number of connections, and maybe a file of
/// quotes.
pub fn serve_words(alloc: Global, words: &[String]) -> Result<ServePlan, WordFault>
    ensures plan { IfOk result (λ plan. plan_of (texts words.now) ≡ Some (plan_in plan)) }
    ensures bad_words { result ≡ Err WordFault.BadWords → plan_of (texts words.now) ≡ None }
    ensures few { IfOk result (λ plan. (1 ≤ plan.connections) × (plan.connections ≤ 64)) }
{
    let read = match read_words(alloc, words) {
        Ok(read) => read,
        Err(fault) => return Err(fault),
    };
    match form_of(read.as_slice()) {
        Some(form) => plan_of(alloc, &form).map_err(|_| WordFault::NoMemory),
        None => Err(WordFault::BadWords),
    }
}
