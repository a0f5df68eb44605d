// What is told of a fault beside its number.
ghost use Rattle.std.specs.Prelude.{◌<◌, IfSome};
ghost use Rattle.std.proofs.Props.{props};

use numbers::Fault;
use reasons::Reason;

// What is amiss: the fault; its place, counted from 0; of fault 22 why the name is bad; of faults 26 to 28 the key of the parameter, where it has one.
#[derive(Clone, Copy)]
pub struct Finding {
    pub fault: Fault,
    pub at: usize,
    pub reason: Option<Reason>,
    pub key: Option<usize>,
    ghost wide: { IfSome key (λ k. k < 65536) } by { Prim.hlevel props },
}
