use std::marker::Brand;

/// What the history of a hall begins with. Each run picks it, in contracts alone.
pub trait Began {
    ghost use Rattle.gts_circuits.specs.Housed.{Beginning};

    ghost beginning: { Beginning };
}

impl Began for Brand {
    ghost use Rattle.gts_circuits.specs.Housed.{unset};

    ghost beginning = { unset };
}
