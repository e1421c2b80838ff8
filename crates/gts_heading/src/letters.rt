ghost use Rattle.std.specs.Prelude.{◌≡◌};
ghost use Rattle.gts_heading.specs.Letters as letters;

/// Whether three bytes are the letters of a BBB group: `RRx`, `CCx`, `AAx` or `Pxy`, with x and y any capitals
/// (this project's profile, made after the Manual).
pub fn is_bbb(three: [u8; 3]) -> bool
    ensures { result ≡ letters.is_bbb three }
{
    match three {
        [b'R', b'R', x] | [b'C', b'C', x] | [b'A', b'A', x] => x.is_ascii_uppercase(),
        [b'P', x, y] => x.is_ascii_uppercase() && y.is_ascii_uppercase(),
        _ => false,
    }
}

/// Whether all of these are capitals.
pub fn are_capitals(bytes: &[u8]) -> bool
    ensures { result ≡ letters.are_capitals bytes.now }
{
    bytes.iter().all(|byte| byte.is_ascii_uppercase())
}
