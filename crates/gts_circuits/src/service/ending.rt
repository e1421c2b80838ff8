ghost use Rattle.std.specs.Prelude.{◌≡◌};
ghost use Rattle.gts_circuits.specs.Serving.{receiver_first, sender_first};

use crate::ServeEnd;
use gts_receiver::ReceiveEnd;
use gts_sender::SendEnd;

/// The end of circuit `c` and of those behind it, which came to this one.
pub(crate) fn end_with(c: u32, received: ReceiveEnd, sent: SendEnd, behind: ServeEnd) -> ServeEnd
    ensures { result ≡ receiver_first c received (sender_first c sent behind) }
{
    match received {
        ReceiveEnd::Ended { .. } | ReceiveEnd::LostSync { .. } => match sent {
            SendEnd::Quiet => behind,
            _ => ServeEnd::Sender { c, end: sent },
        },
        _ => ServeEnd::Receiver { c, end: received },
    }
}
