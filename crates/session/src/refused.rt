// What a refused make gives back.
use model::Refusal;
use std::fmt::{self, Debug, Formatter};

// Why a make was refused, and the memory that was lent to it.
#[derive(Drop)]
pub struct Refused<M> {
    pub refusal: Refusal,
    pub memory: M,
}

// Printed as its reason, so that it can be handed on as an error whatever the memory is.
impl<M> Debug for Refused<M> {
    fn fmt<W: fmt::Write>(&self, f: &mut Formatter<W>) -> fmt::Result {
        Debug::fmt(&self.refusal, f)
    }
}
