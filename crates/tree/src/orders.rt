// What a call over the whole tree comes to where no guard applies, before anything changes.
use sweeps::Sweep;

// A value with the register as it was, or a sweep.
#[derive(Clone, Copy)]
pub enum Order {
    Value(u32),
    Sweep(Sweep),
}
