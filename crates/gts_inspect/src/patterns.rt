//! Patterns of headings, where `*` agrees with every character.

ghost use Rattle.std.specs.Prelude.{◌≡◌, ◌≤◌, length};
ghost use Rattle.gts_inspect.specs.Cited.{agrees as agrees_with};

/// The character of a pattern that agrees with every other one.
const ANY: u8 = b'*';

/// Whether a text, which may be a pattern itself, agrees with a pattern that isn't longer.
pub(crate) fn agrees(pattern: &[u8], text: &[u8]) -> bool
    requires { length pattern.now ≤ length text.now }
    ensures { result ≡ agrees_with pattern.now text.now }
{
    for (i, expected) in pattern.iter().enumerate() {
        if *expected != ANY && *expected != text[i] {
            return false;
        }
    }
    true
}
