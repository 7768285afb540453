//! Numbers and bytes as words.
ghost use Rattle.std.specs.Prelude.{◌≡◌};
ghost use Rattle.sim_words.specs.Numbers.{bytes_of, has_upper_case, number_of, with_digit};
ghost use Rattle.sim_words.specs.Reading.{Gives};

use crate::fault::LineFault;
use hex::FromHexError;
use std::alloc::Global;

/// The number of 32 bits that decimal digits write.
#[tactic(auto, using(crate::proofs::Digits::digit_goes, crate::proofs::Digits::digit_stops, crate::proofs::Digits::digits_end))]
pub fn number_of(word: &[u8]) -> Result<u32, LineFault>
    ensures { Gives (λ number. number) result (number_of word.now) }
{
    if word.is_empty() {
        return Err(LineFault::Bad);
    }
    let mut number: u32 = 0;
    'digits: for digit in word {
        number = with_digit(number, *digit)?;
    }
    Ok(number)
}

// The number with one digit more.
#[tactic(auto, using(crate::proofs::Digits::fitting, crate::proofs::Digits::past))]
fn with_digit(number: u32, digit: u8) -> Result<u32, LineFault>
    ensures { Gives (λ longer. longer) result (with_digit number digit) }
{
    if !digit.is_ascii_digit() {
        return Err(LineFault::Bad);
    }
    match number.checked_mul(10) {
        None => Err(LineFault::Bad),
        Some(tens) => match tens.checked_add((digit - b'0') as u32) {
            None => Err(LineFault::Bad),
            Some(longer) => Ok(longer),
        },
    }
}

/// The bytes that hexadecimal digits write, two a byte, all of them in lower case.
pub fn bytes_of(alloc: Global, word: &[u8]) -> Result<Vec<u8>, LineFault>
    ensures { Gives (λ bytes. bytes.items) result (bytes_of word.now) }
{
    if has_upper_case(word) {
        return Err(LineFault::Bad);
    }
    match hex::decode(alloc, word) {
        Ok(bytes) => Ok(bytes),
        Err(FromHexError::OutOfMemory) => Err(LineFault::NoMemory),
        Err(_) => Err(LineFault::Bad),
    }
}

fn has_upper_case(word: &[u8]) -> bool
    ensures { result ≡ has_upper_case word.now }
{
    word.iter().any(|byte| byte.is_ascii_uppercase())
}
