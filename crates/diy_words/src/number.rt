ghost use Rattle.std.specs.{Prelude.{◌≡◌, ◌≤◌, true, false, IfSome}, Char.{is_ascii_digit}, List.{list_all}, Result.{result_ok}, Str.Parse.{digits_value}};
ghost use Rattle.diy_words.specs.NumberWords.{is_number, number_to};

/// The number from 1 to `greatest` that a text of 1 to 7 digits is, or `None`.
pub fn number_to(greatest: u32, text: &str) -> Option<u32>
    ensures value { result ≡ number_to greatest text.now }
    ensures range { IfSome result (λ number. (1 ≤ number) × (number ≤ greatest)) }
{
    if !is_number(text) {
        return None;
    }
    match text.parse::<u32>() {
        Ok(number) => {
            if number > 0 && number <= greatest {
                Some(number)
            } else {
                None
            }
        }
        Err(_) => None,
    }
}

fn is_number(text: &str) -> bool
    ensures { result ≡ is_number text.now }
{
    !text.is_empty() && text.len() <= 7 && has_digits(text.as_bytes())
}

fn has_digits(bytes: &[u8]) -> bool
    ensures { result ≡ list_all is_ascii_digit bytes.now }
{
    bytes.iter().all(|byte| byte.is_ascii_digit())
}
