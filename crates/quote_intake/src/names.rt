//! Configured names.
ghost use Rattle.std.specs.Prelude.{◌≡◌, ◌<◌, ◌^◌, length, IfSome};
ghost use Rattle.quote_intake.specs.Quote.{number_in};

use venue_words::Bytes;

/// The place of a name.
fn place_of(names: &[Bytes], name: &[u8]) -> Option<usize>
    ensures value { result ≡ number_in names.now name.now }
    ensures within { IfSome result (λ place. place < length names.now) }
{
    names.iter().position(|other| other.as_slice() == name)
}

/// The number of a configured name: its place in the config's order, from 0 on.
#[inline]
pub fn number_in(names: &[Bytes], name: &[u8]) -> Option<u32>
    requires { length names.now < 2 ^ 32 }
    ensures value { result ≡ number_in names.now name.now }
    ensures within { IfSome result (λ number. number < length names.now) }
{
    match place_of(names, name) {
        Some(place) => Some(place as u32),
        None => None,
    }
}
