use gts_traits::{Gate, Point};

/// The gate of the program: it lets everyone through, and tells on standard error which circuit waits for room in the journal, and
/// which goes on.
#[derive(Drop)]
pub struct TellingGate<'a, R: Eprint> {
    pub rt: &'a R,
}

impl<R: Eprint + Sync> Gate for TellingGate<'_, R> {
    fn at(&self, point: Point) {
        let rt = self.rt;
        match point {
            Point::Hear { .. } | Point::Take { .. } | Point::Sent { .. } => {}
            Point::Waits { c } => {
                // Where it can't be told, the circuit waits all the same.
                let _ = eprintln!(rt; "gts_switch: circuit {c} waits for room");
            }
            Point::GoesOn { c } => {
                let _ = eprintln!(rt; "gts_switch: circuit {c} goes on");
            }
        }
    }
}
