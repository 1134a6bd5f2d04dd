// What passes between the thread that accepts and those that pass what clients and the site say.
ghost use Rattle.std.specs.Prelude.{ℕ};
ghost use Rattle.mm_base.specs.Link.{IsFresh};
ghost use Rattle.record_proxy.specs.Servings.{IsJoined};

use crate::ends::ProxyEnd;
use mm_base::Link;
use record_store::Store;
use std::marker::{Brand, PhantomData};

/// The site's port. Each serving picks its own.
pub(crate) trait Site {
    ghost port: { ℕ };
}

impl Site for Brand {
    ghost port = { 0 };
}

/// A client and the connection that was dialed for it. Nothing was taken from either or given to it.
#[derive(Drop)]
pub(crate) struct Pair<A: Link, B: Link> {
    pub client: A,
    pub server: B,
    pub ghost client_fresh: { ∥ IsFresh (A.view client) ∥₁ },
    pub ghost server_fresh: { ∥ IsFresh (B.view server) ∥₁ },
}

/// A client and a dialed connection whose exchanges are over, the records of these, and how they ended.
#[derive(Drop)]
pub(crate) struct Passed<K: Site, A: Link, B: Link> {
    pub client: A,
    pub server: B,
    pub records: Store,
    pub end: ProxyEnd,
    pub site: PhantomData<K>,
    pub ghost joined: { ∥ IsJoined K.port (A.view client) (B.view server) records end ∥₁ },
}
