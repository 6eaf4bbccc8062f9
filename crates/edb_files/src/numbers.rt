//! Numbers among the words.

ghost use Rattle.std.specs.Prelude.{◌≡◌, ◌≤◌, IfSome};
ghost use Rattle.std.specs.Char.{is_ascii_digit};
ghost use Rattle.std.specs.List.{list_all};
ghost use Rattle.edb_files.specs.Numbers.{in_range, is_number, number_in};

/// The most digits of a number.
const MOST_DIGITS: usize = 7;

/// Whether all of these bytes are decimal digits.
fn are_digits(bytes: &[u8]) -> bool
    ensures { result ≡ list_all is_ascii_digit bytes.now }
{
    bytes.iter().all(|byte| byte.is_ascii_digit())
}

/// Whether a word is 1 to 7 decimal digits.
fn is_number_word(word: &str) -> bool
    ensures { result ≡ is_number word.now }
{
    let bytes = word.as_bytes();
    1 <= bytes.len() && bytes.len() <= MOST_DIGITS && are_digits(bytes)
}

/// The number, if it is at least `least` and at most `most`.
fn ranged(number: u32, least: u32, most: u32) -> Option<u32>
    ensures number { result ≡ in_range least most number }
    ensures range { IfSome result (λ n. (least ≤ n) × (n ≤ most)) }
{
    if number < least {
        return None;
    }
    if number > most {
        return None;
    }
    Some(number)
}

/// The number that a word is: 1 to 7 decimal digits, with a value of at least `least` and at most `most`. `None` if the
/// word is none.
#[tactic(auto, using(crate::proofs::NumberLaws::parsed, crate::proofs::NumberLaws::too_great))]
pub fn read_number(word: &str, least: u32, most: u32) -> Option<u32>
    ensures number { result ≡ number_in least most word.now }
    ensures range { IfSome result (λ n. (least ≤ n) × (n ≤ most)) }
{
    if !is_number_word(word) {
        return None;
    }
    match word.parse::<u32>() {
        Ok(number) => ranged(number, least, most),
        Err(_) => None,
    }
}
