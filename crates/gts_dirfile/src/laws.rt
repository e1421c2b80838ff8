//! Laws over all texts, each the contract of a function with an empty body.

ghost use Rattle.std.specs.Prelude.{◌≡◌, ◌↔◌, ℕ, List, Some};
ghost use Rattle.gts_dirfile.specs.Cited.{Ipv4Addr, IsIpv4Text, address_of_text};

/// A text is read as an address exactly where it is that address's writing: four decimal numbers below 256 without leading
/// zeros, with dots between them.
pub fn an_address_is_read_from_its_writing_alone()
    ensures { (text : List ℕ) (address : Ipv4Addr) →
        (address_of_text text ≡ Some address) ↔ IsIpv4Text text address }
{}
