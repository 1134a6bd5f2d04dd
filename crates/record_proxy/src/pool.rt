// A proxy until its user ends it: a number of clients at a time, and no limit in all.
ghost use Rattle.std.specs.Prelude.{◌≡◌, ◌≢◌, ◌⊎◌, ◌<◌, ◌≤◌, ◌+◌, [], true, Some, Ok, Err, IfOk, IfSome};
ghost use Rattle.std.specs.Thread.{IsSync};
ghost use Rattle.mm_base.specs.Counts.{Rose};
ghost use Rattle.mm_base.specs.Link.{IsFresh};
ghost use Rattle.mm_base.specs.Port.{PortView, KeepsPort, after_finish};
ghost use Rattle.record_proxy.specs.Asking.{ListensAt, OnlyAsks, asked_at};
ghost use Rattle.record_proxy.specs.Servings.{IsServed, ServingSays, most_recorded, net};
ghost use Rattle.record_proxy.specs.inside.Passing.{EndsWith};
ghost use Rattle.record_proxy.specs.inside.Pools.{MovesPool};

use crate::dialer::Dialer;
use crate::ends::{ProxyEnd, ProxyError};
use crate::job::ProxyJob;
use crate::messages::{Pair, Passed, Site};
use crate::serving::{finish_dialed, refused};
use crate::standing::{MOST_RECORDED, RecordingStanding};
use crate::workers::{RecordingWorkers, work_all};
use crossbeam_channel::Sender;
use mm_base::{EndError, Link, Port};
use record_store::Store;
use replay_server::{Served, Workers};
use std::alloc::Global;
use std::marker::{Brand, Send, Sync};
use std::sync::Wait;
use std::thread::{Threads, join_mut};
use text_base::OutOfMemory;

// The site's port, and where pairs are sent to be passed.
#[derive(Drop)]
struct Door<A: Link + Send + Drop, B: Link + Send + Drop> {
    site_port: u16,
    to: Sender<Pair<A, B>>,
}

// How a pair counts that ended so, where finishing the dialed connection answered that. None: it failed.
fn counted(end: ProxyEnd, done: Result<(), EndError>) -> Result<Option<ProxyEnd>, ProxyError>
    ensures ok { IfOk result (λ counted. EndsWith end done counted) }
    ensures err { result ≢ Err ProxyError.Port }
{
    match done {
        Ok(()) => Ok(Some(end)),
        Err(EndError::Failed) => Ok(None),
        Err(EndError::OutOfMemory) => Err(ProxyError::OutOfMemory),
    }
}

// Finishes a client.
fn finish_client<P: Port>(port: &mut P, client: P::Conn) -> Result<(), ProxyError>
    ensures finished { IfOk result (λ u. (P.view port.new).finished ≡ after_finish client (Ok u)
        (P.view port.old).finished) }
    ensures accepted { (P.view port.new).accepted ≡ (P.view port.old).accepted }
    ensures heard { (P.view port.new).listened ≡ (P.view port.old).listened }
    ensures keeps { KeepsPort (P.view port.old) (P.view port.new) }
    ensures cause { result ≡ Err ProxyError.Port → Rose (P.view port.old).faults (P.view port.new).faults }
{
    match port.finish(client) {
        Ok(()) => Ok(()),
        Err(error) => Err(refused(error)),
    }
}

// Finishes a pair that came back, and takes its records.
fn take_back<K: Site, P: Port, X: Dialer>(
    port: &mut P,
    dialer: &mut X,
    passed: Passed<K, P::Conn, X::Conn>,
    standing: RecordingStanding,
) -> Result<RecordingStanding, ProxyError>
    requires { 0 < standing.away }
    ensures moves { IfOk result (λ next. MovesPool K.port P.Conn.view X.Conn.view
        (net (P.view port.old) (X.view dialer.old)) standing (net (P.view port.new) (X.view dialer.new)) next) }
    ensures less { IfOk result (λ next. next.away + 1 ≡ standing.away) }
    ensures same { IfOk result (λ next. next.begun ≡ standing.begun) }
    ensures heard { (P.view port.new).listened ≡ (P.view port.old).listened }
    ensures asked { (X.view dialer.new).asked ≡ (X.view dialer.old).asked }
    ensures keeps { KeepsPort (P.view port.old) (P.view port.new) }
    ensures cause { result ≡ Err ProxyError.Port → Rose (P.view port.old).faults (P.view port.new).faults }
{
    let Passed {
        client,
        server,
        records,
        end,
        site: _,
    } = passed;
    let done = finish_dialed(dialer, server);
    let counted = counted(end, done)?;
    finish_client(port, client)?;
    Ok(standing.with_one_back(counted, records)?)
}

// Unwraps a worker's reply. `OutOfMemory` comes also if no worker is left.
fn back<K: Site, A: Link, B: Link>(
    came: Option<Result<Passed<K, A, B>, OutOfMemory>>,
) -> Result<Passed<K, A, B>, ProxyError>
    ensures { result ≢ Err ProxyError.Port }
{
    match came {
        Some(Ok(passed)) => Ok(passed),
        _ => Err(ProxyError::OutOfMemory),
    }
}

// Takes back the pairs that came, until fewer are away than may be.
fn clear<K: Site, P: Port, X: Dialer, R: Wait>(
    rt: &R,
    port: &mut P,
    dialer: &mut X,
    workers: &RecordingWorkers<K, P::Conn, X::Conn>,
    standing: RecordingStanding,
) -> Result<RecordingStanding, ProxyError>
    ensures moves { IfOk result (λ next. MovesPool K.port P.Conn.view X.Conn.view
        (net (P.view port.old) (X.view dialer.old)) standing (net (P.view port.new) (X.view dialer.new)) next) }
    ensures same { IfOk result (λ next. next.begun ≡ standing.begun) }
    ensures heard { (P.view port.new).listened ≡ (P.view port.old).listened }
    ensures asked { (X.view dialer.new).asked ≡ (X.view dialer.old).asked }
    ensures keeps { KeepsPort (P.view port.old) (P.view port.new) }
    ensures cause { result ≡ Err ProxyError.Port → Rose (P.view port.old).faults (P.view port.new).faults }
{
    let mut standing = standing;
    'back: while standing.away > 0 {
        let Some(came) = workers.pool.next_done(rt, standing.away) else {
            return Ok(standing);
        };
        standing = take_back(port, dialer, came?, standing)?;
    }
    Ok(standing)
}

// Sends a client and the connection that was dialed for it to the workers. Returns false where there are none.
fn send_pair<A: Link + Send + Drop, B: Link + Send + Drop, R: Wait>(
    rt: &R,
    door: &Door<A, B>,
    client: A,
    server: B,
) -> bool
    requires client_fresh { IsFresh (A.view client) }
    requires server_fresh { IsFresh (B.view server) }
{
    door.to.send(rt, Pair { client, server }).is_ok()
}

// Dials for a client that was accepted, and sends both to the workers. A client for which the dialer fails is
// finished.
fn dial_for<K: Site, P: Port, X: Dialer, R: Wait>(
    rt: &R,
    port: &mut P,
    dialer: &mut X,
    door: &Door<P::Conn, X::Conn>,
    client: P::Conn,
    standing: RecordingStanding,
) -> Result<RecordingStanding, ProxyError>
    requires fresh { IsFresh (P.Conn.view client) }
    requires few { standing.begun < most_recorded }
    requires at { door.now.site_port ≡ K.port }
    ensures moves { IfOk result (λ next. (before : PortView P.Conn) → (P.view port.old).accepted ≡ before.accepted + 1
        → (P.view port.old).finished ≡ before.finished → KeepsPort before (P.view port.old)
        → MovesPool K.port P.Conn.view X.Conn.view (net before (X.view dialer.old)) standing
        (net (P.view port.new) (X.view dialer.new)) next) }
    ensures more { IfOk result (λ next. next.begun ≡ standing.begun + 1) }
    ensures heard { (P.view port.new).listened ≡ (P.view port.old).listened }
    ensures asks { (X.view dialer.new).asked ≡ asked_at K.port (X.view dialer.old).asked }
    ensures keeps { KeepsPort (P.view port.old) (P.view port.new) }
    ensures cause { result ≡ Err ProxyError.Port → Rose (P.view port.old).faults (P.view port.new).faults }
{
    match dialer.dial(door.site_port) {
        Ok(server) => {
            if send_pair(rt, door, client, server) {
                Ok(standing.with_one_away())
            } else {
                Err(ProxyError::OutOfMemory)
            }
        }
        Err(EndError::Failed) => {
            finish_client(port, client)?;
            Ok(standing.with_one_lost())
        }
        Err(EndError::OutOfMemory) => Err(ProxyError::OutOfMemory),
    }
}

// Accepts clients until there are no more, and sends each to the workers.
fn admit_all<K: Site, P: Port, X: Dialer, R: Wait>(
    rt: &R,
    port: &mut P,
    dialer: &mut X,
    workers: &RecordingWorkers<K, P::Conn, X::Conn>,
    door: &Door<P::Conn, X::Conn>,
    standing: RecordingStanding,
) -> Result<RecordingStanding, ProxyError>
    requires few { standing.begun ≤ most_recorded }
    requires at { door.now.site_port ≡ K.port }
    ensures moves { IfOk result (λ next. MovesPool K.port P.Conn.view X.Conn.view
        (net (P.view port.old) (X.view dialer.old)) standing (net (P.view port.new) (X.view dialer.new)) next) }
    ensures stopped { IfOk result (λ next. ((P.view port.new).drained ≡ true) ⊎ (next.begun ≡ most_recorded)) }
    ensures few { IfOk result (λ next. next.begun ≤ most_recorded) }
    ensures heard { (P.view port.new).listened ≡ (P.view port.old).listened }
    ensures asks { OnlyAsks K.port (X.view dialer.old).asked (X.view dialer.new).asked }
    ensures keeps { KeepsPort (P.view port.old) (P.view port.new) }
    ensures cause { result ≡ Err ProxyError.Port → Rose (P.view port.old).faults (P.view port.new).faults }
{
    let mut standing = standing;
    'open: while standing.begun < MOST_RECORDED {
        standing = clear(rt, port, dialer, workers, standing)?;
        match port.accept() {
            Ok(Some(client)) => standing = dial_for::<K, P, X, R>(
                rt, port, dialer, door, client, standing,
            )?,
            Ok(None) => return Ok(standing),
            Err(error) => return Err(refused(error)),
        }
    }
    Ok(standing)
}

// Takes back all pairs that are away.
fn take_all<K: Site, P: Port, X: Dialer, R: Wait>(
    rt: &R,
    port: &mut P,
    dialer: &mut X,
    workers: &RecordingWorkers<K, P::Conn, X::Conn>,
    standing: RecordingStanding,
) -> Result<RecordingStanding, ProxyError>
    ensures moves { IfOk result (λ next. MovesPool K.port P.Conn.view X.Conn.view
        (net (P.view port.old) (X.view dialer.old)) standing (net (P.view port.new) (X.view dialer.new)) next) }
    ensures none { IfOk result (λ next. next.away ≡ 0) }
    ensures same { IfOk result (λ next. next.begun ≡ standing.begun) }
    ensures heard { (P.view port.new).listened ≡ (P.view port.old).listened }
    ensures asked { (X.view dialer.new).asked ≡ (X.view dialer.old).asked }
    ensures keeps { KeepsPort (P.view port.old) (P.view port.new) }
    ensures cause { result ≡ Err ProxyError.Port → Rose (P.view port.old).faults (P.view port.new).faults }
{
    let mut standing = standing;
    'away: while standing.away > 0 {
        let passed = back(workers.pool.wait_done(rt))?;
        standing = take_back(port, dialer, passed, standing)?;
    }
    Ok(standing)
}

// Serves the clients of a port by the workers, once one of them has begun.
fn serve_port<K: Site, P: Port, X: Dialer, R: Wait>(
    rt: &R,
    workers: &RecordingWorkers<K, P::Conn, X::Conn>,
    door: Door<P::Conn, X::Conn>,
    port: &mut P,
    dialer: &mut X,
) -> Result<RecordingStanding, ProxyError>
    requires { door.site_port ≡ K.port }
    ensures serving { IfOk result (λ next. IsServed K.port P.Conn.view X.Conn.view true most_recorded
        (net (P.view port.old) (X.view dialer.old)) (net (P.view port.new) (X.view dialer.new)) []
        next.records next.served) }
    ensures heard { (P.view port.new).listened ≡ (P.view port.old).listened }
    ensures asks { OnlyAsks K.port (X.view dialer.old).asked (X.view dialer.new).asked }
    ensures keeps { KeepsPort (P.view port.old) (P.view port.new) }
    ensures cause { result ≡ Err ProxyError.Port → Rose (P.view port.old).faults (P.view port.new).faults }
{
    if !workers.pool.have_begun(rt) {
        return Err(ProxyError::OutOfMemory);
    }
    let standing = RecordingStanding::new(workers.alloc);
    let standing = admit_all(rt, port, dialer, workers, &door, standing)?;
    drop(door);
    take_all(rt, port, dialer, workers, standing)
}

// Serves the clients of a port beside the workers.
fn serve_beside<
    'a,
    K: Site + Send + Sync,
    P: Port + Send,
    X: Dialer + Send,
    R: Threads + Wait + Sync,
>(
    rt: &'a R,
    workers: &'a RecordingWorkers<K, P::Conn, X::Conn>,
    door: Door<P::Conn, X::Conn>,
    port: &'a mut P,
    dialer: &'a mut X,
) -> Result<RecordingStanding, ProxyError>
    requires { door.site_port ≡ K.port }
    ensures serving { IfOk result (λ next. IsServed K.port P.Conn.view X.Conn.view true most_recorded
        (net (P.view port.old) (X.view dialer.old)) (net (P.view port.new) (X.view dialer.new)) []
        next.records next.served) }
    ensures heard { (P.view port.new).listened ≡ (P.view port.old).listened }
    ensures asks { OnlyAsks K.port (X.view dialer.old).asked (X.view dialer.new).asked }
    ensures keeps { KeepsPort (P.view port.old) (P.view port.new) }
    ensures cause { result ≡ Err ProxyError.Port → Rose (P.view port.old).faults (P.view port.new).faults }
{
    let mut given = Some(door);
    let (_, served) = join_mut(
        rt,
        &mut ||
            requires { IsSync R.row }
        { work_all(rt, workers) },
        &mut || -> Result<RecordingStanding, ProxyError>
            requires { IsSync R.row × IfSome given (λ door. door.site_port ≡ K.port) }
            ensures serving { IfOk result (λ next. IsServed K.port P.Conn.view X.Conn.view true most_recorded
                (net (P.view port.entry.now) (X.view dialer.entry.now)) (net (P.view port.exit.now)
                (X.view dialer.exit.now)) [] next.records next.served) }
            ensures heard { (P.view port.exit.now).listened ≡ (P.view port.entry.now).listened }
            ensures asks { OnlyAsks K.port (X.view dialer.entry.now).asked (X.view dialer.exit.now).asked }
            ensures keeps { KeepsPort (P.view port.entry.now) (P.view port.exit.now) }
            ensures cause { result ≡ Err ProxyError.Port
                → Rose (P.view port.entry.now).faults (P.view port.exit.now).faults }
        {
            match given.take() {
                Some(door) => serve_port::<K, P, X, R>(rt, workers, door, port, dialer),
                None => Err(ProxyError::OutOfMemory),
            }
        },
    );
    served
}

// Serves the clients of a port, up to the job's number of them at a time.
fn run_pool<K: Site + Send + Sync, P: Port + Send, X: Dialer + Send, R: Threads + Wait + Sync>(
    rt: &R,
    alloc: Global,
    job: &ProxyJob<'_>,
    port: &mut P,
    dialer: &mut X,
) -> Result<RecordingStanding, ProxyError>
    requires { job.now.site_port ≡ K.port }
    ensures serving { IfOk result (λ next. IsServed K.port P.Conn.view X.Conn.view true most_recorded
        (net (P.view port.old) (X.view dialer.old)) (net (P.view port.new) (X.view dialer.new)) []
        next.records next.served) }
    ensures heard { (P.view port.new).listened ≡ (P.view port.old).listened }
    ensures asks { OnlyAsks K.port (X.view dialer.old).asked (X.view dialer.new).asked }
    ensures keeps { KeepsPort (P.view port.old) (P.view port.new) }
    ensures cause { result ≡ Err ProxyError.Port → Rose (P.view port.old).faults (P.view port.new).faults }
{
    let (to, pool) = Workers::new(alloc, job.connections)?;
    let site_port = job.site_port;
    let workers = RecordingWorkers::<K, P::Conn, X::Conn> {
        alloc,
        site_port,
        pool,
    };
    serve_beside(rt, &workers, Door { site_port, to }, port, dialer)
}

/// Listens at the port of a job, and serves its clients, up to the job's number of them at a time, until the port has
/// no more, or 4,294,967,295 were accepted: for each a connection to the site's port is dialed, both pass through
/// (`proxy_conn`) in a thread, and both are finished once they have ended and the next client comes. It is waited for
/// one to end where as many are being served as may be. A client for which the dialer fails is counted as broken.
///
/// `Port` comes only where a fault of the port was counted: it can't be listened at, or a client can't be accepted or
/// finished. `OutOfMemory` means out of memory, and comes also where no thread can be made; where fewer can be made
/// than the job says, fewer clients are served at a time.
pub fn serve_until_ended<P: Port + Send, X: Dialer + Send, R: Threads + Wait + Sync>(
    rt: &R,
    alloc: Global,
    job: &ProxyJob<'_>,
    port: &mut P,
    dialer: &mut X,
    store: &mut Store,
) -> Result<Served, ProxyError>
    ensures serving { ServingSays job.now.site_port P.Conn.view X.Conn.view true most_recorded
        (net (P.view port.old) (X.view dialer.old)) (net (P.view port.new) (X.view dialer.new)) [] store.new result }
    ensures listens { ListensAt job.now.port (P.view port.old) (P.view port.new) result }
    ensures asks { OnlyAsks job.now.site_port (X.view dialer.old).asked (X.view dialer.new).asked }
    ensures keeps { KeepsPort (P.view port.old) (P.view port.new) }
{
    if let Err(error) = port.listen(job.port) {
        return Err(refused(error));
    }
    let standing = run_pool::<Brand, P, X, R>(rt, alloc, job, port, dialer)?;
    let RecordingStanding {
        records,
        served,
        ..
    } = standing;
    *store = records;
    Ok(served)
}
