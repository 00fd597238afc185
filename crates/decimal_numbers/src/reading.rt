// Reading a number.
ghost use Rattle.std.specs.Prelude.{◌≡◌};
ghost use Rattle.std.specs.List.{list_all};
ghost use Rattle.std.specs.Char.{is_ascii_digit};
ghost use Rattle.decimal_numbers.specs.Number.{is_numeral, number_of};

use std::str;

/// The number of 1 to 20 decimal digits, if it is one below 2^64. Zeros may stand in front.
pub fn number(word: &[u8]) -> Option<u64>
    ensures { result ≡ number_of word.now }
{
    if !is_numeral(word) {
        return None;
    }
    match str::from_utf8(word) {
        Ok(text) => text.parse().ok(),
        Err(_) => None,
    }
}

// Whether a word has 1 to 20 bytes, each a decimal digit.
fn is_numeral(word: &[u8]) -> bool
    ensures { result ≡ is_numeral word.now }
{
    word.len() >= 1 && word.len() <= 20 && are_digits(word)
}

// Whether each byte is a decimal digit.
fn are_digits(word: &[u8]) -> bool
    ensures { result ≡ list_all is_ascii_digit word.now }
{
    word.iter().all(|byte| byte.is_ascii_digit())
}

#[cfg(test)]
mod tests {
    use super::*;

    #[test]
    fn words_and_their_numbers(rt: HostRuntime) {
        let table: [(&str, Option<u64>); 12] = [
            ("0", Some(0)),
            ("007", Some(7)),
            ("18446744073709551615", Some(18_446_744_073_709_551_615)),
            ("18446744073709551616", None),
            ("00000000000000000001", Some(1)),
            ("000000000000000000001", None),
            ("", None),
            ("-1", None),
            ("+1", None),
            ("1 ", None),
            ("1x", None),
            ("\u{661}", None),
        ];
        for (word, want) in table {
            assert_eq!(rt; number(word.as_bytes()), want);
        }
    }
}
