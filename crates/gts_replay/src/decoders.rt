ghost use Rattle.std.specs.Prelude.{◌≡◌, map, replicate, IfOk};
ghost use Rattle.gts_frame.specs.Decoder.{fresh};

use gts_alphabet::NoMemory;
use gts_frame::Decoder;
use std::alloc::Global;

/// A decoder of a new connection for each of so many circuits.
pub fn new_decoders(alloc: Global, circuits: u32) -> Result<Vec<Decoder>, NoMemory>
    ensures { IfOk result (λ decoders. decoders.items ≡ replicate circuits fresh) }
{
    let mut decoders = Vec::with_capacity(alloc, circuits as usize)?;
    for _ in 0..circuits {
        decoders.push(Decoder::new(alloc)?)?;
    }
    Ok(decoders)
}

/// Every circuit begins a new connection.
pub fn reopen_all(decoders: &mut [Decoder])
    ensures { decoders.new ≡ map (λ _. fresh) decoders.old }
{
    for decoder in decoders.iter_mut() {
        decoder.reopen();
    }
}
