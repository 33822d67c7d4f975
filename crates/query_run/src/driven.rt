//! What a run gives.

use switch_core::Pipeline;

/// The pipeline that a run leaves, with a variant for each number of ways of its caches.
pub enum Driven {
    Ways1(Pipeline<1>),
    Ways2(Pipeline<2>),
    Ways4(Pipeline<4>),
    Ways8(Pipeline<8>),
    Ways16(Pipeline<16>),
    Ways32(Pipeline<32>),
}

impl Drop for Driven {
    fn drop(self) {
        match self {
            Driven::Ways1(pipeline) => drop(pipeline),
            Driven::Ways2(pipeline) => drop(pipeline),
            Driven::Ways4(pipeline) => drop(pipeline),
            Driven::Ways8(pipeline) => drop(pipeline),
            Driven::Ways16(pipeline) => drop(pipeline),
            Driven::Ways32(pipeline) => drop(pipeline),
        }
    }
}
