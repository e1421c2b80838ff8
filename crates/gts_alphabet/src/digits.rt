ghost use Rattle.std.specs.Prelude.{◌≡◌, ◌<◌, ◌≤◌, ◌^◌, ◌↔◌, length, IsSome, IfSome};
ghost use Rattle.gts_alphabet.specs.Cited.{AllDigits, dec, digits_value};

/// The number that at most nine decimal digits write, the most significant first; 0 for none. `None` exactly where a
/// byte is no digit.
pub fn decimal_value(digits: &[u8]) -> Option<u32>
    requires { length digits.now ≤ 9 }
    ensures digits { IsSome result ↔ AllDigits 10 digits.now }
    ensures value { IfSome result (λ n. n ≡ digits_value 10 digits.now) }
    ensures small { IfSome result (λ n. n < 10 ^ length digits.now) }
{
    let mut number = 0;
    for digit in digits {
        if !digit.is_ascii_digit() {
            return None;
        }
        number = number * 10 + u32::from(*digit - b'0');
    }
    Some(number)
}

/// The last `W` decimal digits of a number, the most significant first.
pub fn digits_of<const W: usize>(number: u32) -> [u8; W]
    ensures { result ≡ dec W number }
{
    let mut digits = [b'0'; W];
    let mut rest = number;
    let mut i = W;
    while i > 0 {
        i -= 1;
        digits[i] = b'0' + (rest % 10) as u8;
        rest /= 10;
    }
    digits
}
