use gts_app::Status;
use gts_memory::MemStation;

/// How a run ended, and the station that it left.
#[derive(Drop)]
pub struct Left {
    pub status: Status,
    pub station: MemStation,
}
