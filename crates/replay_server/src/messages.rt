// What passes between a port and those who serve its connections.
ghost use Rattle.std.specs.Prelude.{◌≡◌, List, Option, ℕ, length, IfSome};
ghost use Rattle.std.proofs.Props.{props};
ghost use Rattle.record_store.specs.declared.record.Record.{Record};
ghost use Rattle.replay_server.specs.Servings.{IsConnServed};

use crate::ends::ConnEnd;
use mm_base::Link;
use std::marker::{Brand, PhantomData};

/// What is served: the records of a store, and the port at which requests are asked, or none. Each serving picks its
/// own.
pub(crate) trait Serving {
    ghost store: { List Record };

    ghost site_port: { Option ℕ };
}

impl Serving for Brand {
    ghost use Rattle.std.specs.Prelude.{[], None};

    ghost store = { [] };

    ghost site_port = { None };
}

/// A connection of which nothing was taken, and its ordinal.
#[derive(Drop)]
pub(crate) struct Fresh<C: Link> {
    pub conn: C,
    pub ordinal: u32,
    pub ghost untouched: { IfSome (C.view conn).told
        (λ l. (length l.taken ≡ 0) × (length l.given ≡ 0) × (length l.reads ≡ 0)) } by { Prim.hlevel props },
    pub ghost faultless: { (C.view conn).faults ≡ 0 },
}

/// A connection that was served, and how it ended.
#[derive(Drop)]
pub(crate) struct Ended<K: Serving, C: Link> {
    pub conn: C,
    pub end: ConnEnd,
    pub serving: PhantomData<K>,
    pub ghost served: { ∥ IsConnServed K.store K.site_port (C.view conn) end ∥₁ },
}
